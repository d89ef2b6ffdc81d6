// The faults of one line, in the order in which they are looked for, and what lines 100, 200 and 300 say.
#![tactic(auto)]

mod faults;
pub mod gas;
pub mod operation;
mod picture;
pub mod shape;

ghost use Rattle.std.specs.Prelude.{◌≡◌, ◌≤◌, length};
ghost use Rattle.layout.specs.Layout.{length_of, date_column};
ghost use Rattle.lines.specs.Lines.{first_line};
ghost use Rattle.lines.specs.Beginning.{stamped_line};
ghost use Rattle.lines.specs.LineFaults.{shape_fault, facility_line, dated_line, hour_line, due_of, due_fault};
ghost use Rattle.lines.specs.Pictured.{Known};
ghost use Rattle.refusals.specs.Refusals.{fault_number, fault_in, told};

use calendar::Period;
use layout::{RecordType, Row, values};
use refusals::Fault;

// Line 100.
#[tactic(auto, using(crate::proofs::Answers::facility_tests), unfolding(columns::specs::Columns::columns))]
pub fn facility_line(rest: &[u8]) -> Result<Period, Fault>
    ensures { told fault_number result ≡ facility_line (first_line rest.now) }
{
    shape::try_shape(rest, RecordType::Facility)?;
    let line = &rest[..layout::FACILITY_LENGTH];
    if columns::all_blank(&line[faults::STACK_FROM..faults::STACK_TO]) {
        return Err(Fault::Stack);
    }
    let year = faults::digits_in(line, values::YEAR);
    if !values::within(values::YEAR, year) {
        return Err(Fault::Period);
    }
    let quarter = faults::digits_in(line, values::QUARTER);
    if !values::within(values::QUARTER, quarter) {
        return Err(Fault::Period);
    }
    Ok(Period::new(year, quarter))
}

// The hour of the quarter of a line that has no fault so far; it must be at least `from`.
#[tactic(auto, using(crate::proofs::Shapes::line_length_lem, layout::specs::LayoutLaws::date_fits))]
fn stamped_line(rest: &[u8], t: RecordType, period: Period, from: u64) -> Result<u64, Fault>
    requires { (shape_fault t (first_line rest.now) ≡ 0) × (1 ≤ date_column t) }
    ensures { told fault_number result ≡ stamped_line period t from (first_line rest.now) }
{
    let hour = stamp::read_stamp(
        &rest[..layout::line_length(t)],
        layout::date_column(t),
        period,
    );
    match hour {
        Some(at) if from <= at => Ok(at),
        _ => Err(Fault::Period),
    }
}

// A line of a type with a date, whose hour of the quarter must be at least `from`.
#[tactic(auto, using(crate::proofs::Answers::dated_told, crate::proofs::Answers::stamped_dated, crate::proofs::FaultLaws::common_shape))]
fn dated_line(
    facility: &[u8],
    rest: &[u8],
    t: RecordType,
    period: Period,
    from: u64,
) -> Result<u64, Fault>
    requires { (length_of RecordType.Facility ≤ length facility.now) × (1 ≤ date_column t) }
    ensures { told fault_number result ≡ dated_line facility.now period t from (first_line rest.now) }
{
    faults::try_common(facility, rest, t)?;
    stamped_line(rest, t, period, from)
}

// A 200 line.
pub fn hour_line(facility: &[u8], rest: &[u8], period: Period, from: u64) -> Result<u64, Fault>
    requires { length_of RecordType.Facility ≤ length facility.now }
    ensures { told fault_number result ≡ hour_line facility.now period from (first_line rest.now) }
{
    let hour = dated_line(facility, rest, RecordType::So2Concentration, period, from)?;
    gas::try_so2(&rest[..layout::SO2_LENGTH])?;
    Ok(hour)
}

// A line that is due with its type, whose row and picture these are; `hour` is the 200 line of its rank.
pub fn try_due(
    facility: &[u8],
    hour: &[u8],
    rest: &[u8],
    t: RecordType,
    row: Row,
    picture: &[u8],
) -> Result<(), Fault>
    requires length_of_in_bounds { (length_of RecordType.Facility ≤ length facility.now) × (1 ≤ date_column t → length hour.now ≡ length_of RecordType.So2Concentration) }
    requires known { Known t row picture.now }
    ensures { fault_in fault_number result ≡ due_fault facility.now (due_of t hour.now) (first_line rest.now) }
{
    if picture::is_right(facility, hour, rest, t, row, picture) {
        return Ok(());
    }
    try_tests(facility, hour, rest, t)
}

// The same, test by test.
fn try_tests(facility: &[u8], hour: &[u8], rest: &[u8], t: RecordType) -> Result<(), Fault>
    requires { (length_of RecordType.Facility ≤ length facility.now) × (1 ≤ date_column t → length hour.now ≡ length_of RecordType.So2Concentration) }
    ensures { fault_in fault_number result ≡ due_fault facility.now (due_of t hour.now) (first_line rest.now) }
{
    faults::try_common(facility, rest, t)?;
    let row = layout::row_of(t);
    let line = &rest[..row.length];
    faults::try_ranked_date(line, hour, row.date)?;
    gas::try_gas(line, hour, row.gas)?;
    faults::try_values(line, t)
}
