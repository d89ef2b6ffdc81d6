// A gas hour: GAS on its 310 line, and no SO2 reading on the 200 line of its rank.
ghost use Rattle.std.specs.Prelude.{◌≡◌, true, ◌≤◌, length};
ghost use Rattle.layout.specs.Layout.{length_of};
ghost use Rattle.layout.specs.Values.{so2_ppm};
ghost use Rattle.lines.specs.LineFaults.{field_in, so2_fault, has_gas, so2_blank, gas_fault};
ghost use Rattle.refusals.specs.Refusals.{fault_number, fault_in};

use crate::faults;
use columns::Field;
use layout::{RecordType, values};
use refusals::Fault;

// Whether a 310 line has GAS.
pub fn has_gas(line: &[u8]) -> bool
    requires { length_of RecordType.So2Mass ≤ length line.now }
    ensures { result ≡ has_gas line.now }
{
    columns::same_bytes(&line[layout::GAS_FROM..layout::GAS_TO], &layout::GAS)
}

// Whether a 200 line has a blank value.
fn so2_blank(hour: &[u8]) -> bool
    requires { length hour.now ≡ length_of RecordType.So2Concentration }
    ensures { result ≡ so2_blank hour.now }
{
    let from = values::SO2_PPM.start - 1;
    columns::all_blank(&hour[from..from + values::SO2_PPM.width])
}

// The two go together, on lines of a type that may have GAS.
#[tactic(auto, unfolding(crate::specs::LineFaults::gas_fault))]
pub fn try_gas(line: &[u8], hour: &[u8], gas: bool) -> Result<(), Fault>
    requires { gas ≡ true → (length_of RecordType.So2Mass ≤ length line.now) × (length hour.now ≡ length_of RecordType.So2Concentration) }
    ensures { fault_in fault_number result ≡ gas_fault gas hour.now line.now }
{
    if !gas {
        return Ok(());
    }
    if has_gas(line) == so2_blank(hour) {
        return Ok(());
    }
    Err(Fault::Gas)
}

// The value of a 200 line, which may be blank there.
#[tactic(auto, unfolding(crate::specs::LineFaults::so2_fault))]
pub fn try_so2(line: &[u8]) -> Result<(), Fault>
    requires { length line.now ≡ length_of RecordType.So2Concentration }
    ensures { fault_in fault_number result ≡ so2_fault (field_in so2_ppm line.now) }
{
    let v = values::SO2_PPM;
    let so2 = columns::read_number(line, v.start, v.width, v.decimals);
    match so2 {
        Field::Number(_) => faults::try_field(v, so2),
        Field::Malformed => Err(Fault::Format),
        Field::Blank => Ok(()),
    }
}
