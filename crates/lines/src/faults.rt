// What a line is tried for whose shape is its type's.
ghost use Rattle.std.specs.Prelude.{◌≡◌, ◌+◌, ◌-◌, ◌≤◌, length};
ghost use Rattle.columns.specs.Columns.{Inside};
ghost use Rattle.layout.specs.Layout.{length_of, values_of, date_width, ValueInside};
ghost use Rattle.lines.specs.Lines.{first_line};
ghost use Rattle.refusals.specs.Refusals.{fault_number, fault_in};
ghost use Rattle.lines.specs.LineFaults.{stack_fault, common_fault, digits_in, field_fault, field_in, values_fault, date_on, date_fault};

use crate::shape;
use columns::Field;
use layout::values::Value;
use layout::{RecordType, values};
use refusals::Fault;

// The stack name, in bytes of a line.
pub const STACK_FROM: usize = layout::STACK_START - 1;

pub const STACK_TO: usize = STACK_FROM + layout::STACK_WIDTH;

// The stack name, in a line that is long enough.
fn try_stack(facility: &[u8], line: &[u8]) -> Result<(), Fault>
    requires { (length_of RecordType.Facility ≤ length facility.now) × (length_of RecordType.Facility ≤ length line.now) }
    ensures { fault_in fault_number result ≡ stack_fault facility.now line.now }
{
    if columns::same_bytes(&line[STACK_FROM..STACK_TO], &facility[STACK_FROM..STACK_TO]) {
        return Ok(());
    }
    Err(Fault::Stack)
}

// What every line behind line 100 is tried for first.
#[tactic(auto, unfolding(crate::specs::LineFaults::common_fault), using(crate::proofs::Shapes::line_known, crate::proofs::Shapes::line_length_lem, refusals::proofs::Numbers::fault_positive, refusals::proofs::Numbers::first_said, refusals::proofs::Numbers::next_said))]
pub fn try_common(facility: &[u8], rest: &[u8], t: RecordType) -> Result<(), Fault>
    requires { length_of RecordType.Facility ≤ length facility.now }
    ensures { fault_in fault_number result ≡ common_fault facility.now t (first_line rest.now) }
{
    shape::try_shape(rest, t)?;
    let long = layout::line_length(t);
    try_stack(facility, &rest[..long])
}

// The number in columns that are digits only; 0 where they are not.
pub fn digits_in(line: &[u8], v: Value) -> u64
    requires { Inside v.start v.width line.now × (v.width ≤ 18) }
    ensures { result ≡ digits_in v line.now }
{
    columns::number_of(columns::read_digits(line, v.start, v.width))
}

// A value's format, its range and its step.
#[tactic(auto, unfolding(crate::specs::LineFaults::field_fault))]
pub fn try_field(v: Value, field: Field) -> Result<(), Fault>
    requires { 1 ≤ v.step }
    ensures { fault_in fault_number result ≡ field_fault v field }
{
    match field {
        Field::Number(k) => {
            if !values::in_range(v, k) {
                return Err(Fault::Range);
            }
            if !values::whole_steps(v, k) {
                return Err(Fault::Thousands);
            }
            Ok(())
        }
        Field::Malformed | Field::Blank => Err(Fault::Format),
    }
}

pub fn try_value(line: &[u8], t: RecordType, v: Value) -> Result<(), Fault>
    requires { (length line.now ≡ length_of t) × ValueInside t v }
    ensures { fault_in fault_number result ≡ field_fault v (field_in v line.now) }
{
    try_field(v, columns::read_number(line, v.start, v.width, v.decimals))
}

// A record's values, left to right.
pub fn try_values(line: &[u8], t: RecordType) -> Result<(), Fault>
    requires { length line.now ≡ length_of t }
    ensures { fault_in fault_number result ≡ values_fault (values_of t) line.now }
{
    for i in 0..layout::value_count(t) {
        try_value(line, t, layout::value_at(t, i))?;
    }
    Ok(())
}

// A date and hour that must be `date`, from its column on.
#[tactic(auto, unfolding(columns::specs::Columns::columns, crate::specs::LineFaults::date_fault))]
pub fn try_date(line: &[u8], date: &[u8], column: usize) -> Result<(), Fault>
    requires { (1 ≤ column) × (column - 1 + date_width ≤ length line.now) }
    ensures { fault_in fault_number result ≡ date_fault column date.now line.now }
{
    let from = column - 1;
    if columns::same_bytes(&line[from..from + layout::DATE_WIDTH], date) {
        return Ok(());
    }
    Err(Fault::Date)
}

// A date and hour that must be those of the 200 line `hour`; a type without one has column 0.
#[tactic(auto, unfolding(columns::specs::Columns::columns, crate::specs::LineFaults::date_fault))]
pub fn try_ranked_date(line: &[u8], hour: &[u8], column: usize) -> Result<(), Fault>
    requires { (column - 1 + date_width ≤ length line.now) × (1 ≤ column → length hour.now ≡ length_of RecordType.So2Concentration) }
    ensures { fault_in fault_number result ≡ date_fault column (date_on RecordType.So2Concentration hour.now) line.now }
{
    if column == 0 {
        return Ok(());
    }
    try_date(line, &hour[layout::HOUR_FROM..layout::HOUR_TO], column)
}
