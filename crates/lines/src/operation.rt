// A 300 line: an hour that operates, or is idle.
ghost use Rattle.std.specs.Prelude.{◌≡◌, ◌≤◌, length};
ghost use Rattle.layout.specs.Layout.{length_of};
ghost use Rattle.layout.specs.Pictures.{whole_picture};
ghost use Rattle.lines.specs.Lines.{first_line};
ghost use Rattle.lines.specs.Beginning.{operating_at};
ghost use Rattle.lines.specs.LineFaults.{shape_fault, idle_fault, operating_fault, timed_fault, operation_of, operation_line};
ghost use Rattle.refusals.specs.Refusals.{fault_number, fault_in, told};

use crate::{faults, picture};
use calendar::Period;
use columns::Field;
use layout::{RecordType, values};
use refusals::Fault;

// The hour of the quarter that a 300 line is for.
#[derive(Clone, Copy)]
pub enum OperationLine {
    Operating(u64),
    Idle(u64),
}

// The heat of an idle hour, which has none.
#[tactic(auto, unfolding(crate::specs::LineFaults::idle_fault))]
fn try_idle(heat: Field) -> Result<(), Fault>
    ensures { fault_in fault_number result ≡ idle_fault heat }
{
    match heat {
        Field::Blank => Ok(()),
        _ => Err(Fault::IdleHeat),
    }
}

// The date and the heat of an operating hour.
#[tactic(auto, using(crate::proofs::Told::first_told, crate::proofs::Told::next_told), unfolding(crate::specs::LineFaults::operating_fault))]
fn try_operating(line: &[u8], date: &[u8]) -> Result<(), Fault>
    requires { length line.now ≡ length_of RecordType.Operation }
    ensures { fault_in fault_number result ≡ operating_fault date.now line.now }
{
    faults::try_date(line, date, layout::OPERATION_DATE)?;
    faults::try_value(line, RecordType::Operation, values::HEAT_RATE)
}

// A line whose hour is right: its time, and by it what follows.
#[tactic(auto, using(crate::proofs::Answers::timeless))]
fn timed_line(line: &[u8], date: &[u8], hour: u64) -> Result<OperationLine, Fault>
    requires { length line.now ≡ length_of RecordType.Operation }
    ensures { told fault_number result ≡ operation_of (timed_fault date.now line.now) hour line.now }
{
    let v = values::LISTED_TIME;
    let time = columns::read_number(line, v.start, v.width, v.decimals);
    faults::try_field(v, time)?;
    if columns::number_of(time) == 0 {
        let v = values::HEAT_RATE;
        try_idle(columns::read_number(line, v.start, v.width, v.decimals))?;
        return Ok(OperationLine::Idle(hour));
    }
    try_operating(line, date)?;
    Ok(OperationLine::Operating(hour))
}

// A 300 line of an operating hour, of which its hour alone is left to try.
#[tactic(auto, using(crate::proofs::Answers::operating_not, crate::proofs::Answers::operating_of))]
fn operating_line(rest: &[u8], period: Period, from: u64) -> Result<OperationLine, Fault>
    requires { shape_fault RecordType.Operation (first_line rest.now) ≡ 0 }
    ensures { told fault_number result ≡ operating_at period from (first_line rest.now) }
{
    let hour = crate::stamped_line(rest, RecordType::Operation, period, from)?;
    Ok(OperationLine::Operating(hour))
}

// A 300 line, whose hour of the quarter must be at least `from`; `date` is that which it must have where it operates; `picture` is that of its type,
// and looked at if asked to.
#[tactic(auto, using(crate::proofs::Answers::stamped_operation, crate::proofs::FaultLaws::common_shape))]
pub fn operation_line(
    facility: &[u8],
    rest: &[u8],
    period: Period,
    from: u64,
    date: &[u8],
    by_picture: bool,
    picture: &[u8],
) -> Result<OperationLine, Fault>
    requires length_of_in_bounds { length_of RecordType.Facility ≤ length facility.now }
    requires picture_value { picture.now ≡ whole_picture RecordType.Operation }
    ensures { told fault_number result ≡ operation_line facility.now period from date.now (first_line rest.now) }
{
    if by_picture && picture::is_operating(facility, rest, date, picture) {
        return operating_line(rest, period, from);
    }
    try_operation(facility, rest, period, from, date)
}

// The same, test by test.
#[tactic(auto, using(crate::proofs::Answers::operation_undated, crate::proofs::Answers::dated_known, crate::proofs::Answers::operation_behind))]
fn try_operation(
    facility: &[u8],
    rest: &[u8],
    period: Period,
    from: u64,
    date: &[u8],
) -> Result<OperationLine, Fault>
    requires { length_of RecordType.Facility ≤ length facility.now }
    ensures { told fault_number result ≡ operation_line facility.now period from date.now (first_line rest.now) }
{
    let hour = crate::dated_line(facility, rest, RecordType::Operation, period, from)?;
    timed_line(&rest[..layout::OPERATION_LENGTH], date, hour)
}
