// Lines by the picture of their type: one that fits it has most of what is asked of it. What does not fit may still be right.
ghost use Rattle.std.specs.Prelude.{◌≡◌, true, ◌≤◌, length};
ghost use Rattle.layout.specs.Layout.{length_of, date_column, ValueInside};
ghost use Rattle.layout.specs.Pictures.{whole_picture};
ghost use Rattle.lines.specs.Lines.{first_line};
ghost use Rattle.lines.specs.LineFaults.{due_of, due_fault};
ghost use Rattle.lines.specs.Pictured.{Known, Pictured, OperatingLine, number_holds, ranges_hold};

use crate::{faults, gas};
use layout::values::Value;
use layout::{RecordType, Row, values};

// Whether what is left begins with a line that fits its type's picture and has the stack name.
fn is_pictured(facility: &[u8], rest: &[u8], t: RecordType, long: usize, picture: &[u8]) -> bool
    requires { (length_of RecordType.Facility ≤ length facility.now) × (long ≡ length_of t) × (picture.now ≡ whole_picture t) }
    ensures { result ≡ true → Pictured facility.now t rest.now }
{
    if rest.len() <= long {
        return false;
    }
    if rest[long] != 10 {
        return false;
    }
    if !columns::fits(rest, &picture[..long]) {
        return false;
    }
    columns::same_bytes(
        &rest[faults::STACK_FROM..faults::STACK_TO],
        &facility[faults::STACK_FROM..faults::STACK_TO],
    )
}

// Whether the number in a value's columns is one of its range.
fn ranged(line: &[u8], t: RecordType, v: Value) -> bool
    requires { (length line.now ≡ length_of t) × ValueInside t v }
    ensures { result ≡ number_holds v line.now }
{
    values::within(v, columns::worth(line, v.start, v.width, v.decimals))
}

// Whether the numbers of a line are of their ranges: every other value may be whatever its columns hold.
#[tactic(auto, using(layout::proofs::ValueLaws::value_inside), unfolding(crate::specs::Pictured::ranges_hold))]
fn in_ranges(line: &[u8], t: RecordType) -> bool
    requires { length line.now ≡ length_of t }
    ensures { result ≡ ranges_hold t line.now }
{
    match t {
        RecordType::Co2Concentration => ranged(line, t, values::CO2_PERCENT),
        RecordType::VolumetricFlow => ranged(line, t, values::FLOW_SCFH),
        RecordType::Operation => ranged(line, t, values::TIME_HOURS),
        RecordType::NoxRate => ranged(line, t, values::F_FACTOR),
        RecordType::Facility
        | RecordType::So2Concentration
        | RecordType::NoxConcentration
        | RecordType::QuarterTotals
        | RecordType::So2Mass
        | RecordType::Co2Mass => true,
    }
}

// Whether a line that is due is at once seen to be right.
pub fn is_right(
    facility: &[u8],
    hour: &[u8],
    rest: &[u8],
    t: RecordType,
    row: Row,
    picture: &[u8],
) -> bool
    requires length_of_in_bounds { (length_of RecordType.Facility ≤ length facility.now) × (1 ≤ date_column t → length hour.now ≡ length_of RecordType.So2Concentration) }
    requires known { Known t row picture.now }
    ensures { result ≡ true → due_fault facility.now (due_of t hour.now) (first_line rest.now) ≡ 0 }
{
    if !is_pictured(facility, rest, t, row.length, picture) {
        return false;
    }
    let line = &rest[..row.length];
    faults::try_ranked_date(line, hour, row.date).is_ok()
        && gas::try_gas(line, hour, row.gas).is_ok()
        && in_ranges(line, t)
}

// Whether what is left begins with a 300 line of this date that is at once seen to be an operating hour's, and right but for its hour. A line of another
// date, as an idle hour's is, is not looked at further.
pub fn is_operating(facility: &[u8], rest: &[u8], date: &[u8], picture: &[u8]) -> bool
    requires { (length_of RecordType.Facility ≤ length facility.now) × (picture.now ≡ whole_picture RecordType.Operation) }
    ensures { result ≡ true → OperatingLine facility.now date.now (first_line rest.now) }
{
    let t = RecordType::Operation;
    if rest.len() < layout::OPERATION_LENGTH {
        return false;
    }
    let line = &rest[..layout::OPERATION_LENGTH];
    faults::try_date(line, date, layout::OPERATION_DATE).is_ok()
        && is_pictured(facility, rest, t, layout::OPERATION_LENGTH, picture)
        && ranged(line, t, values::TIME_HOURS)
}
