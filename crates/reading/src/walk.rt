// The lines of a file in their order, each against the one that is due.
ghost use Rattle.std.specs.Prelude.{◌≡◌, [], ◌+◌, ◌≤◌, ◌<◌, length, drop};
ghost use Rattle.layout.specs.Layout.{length_of, count_of, order, shape};
ghost use Rattle.lines.specs.Lines.{lines};
ghost use Rattle.reading.specs.Reading.{walk_last, walk_listed, walk_later, walk_hours, next_date};
ghost use Rattle.reading.specs.Places.{facility_of, hour_start, hour_line_in, hour_lines_in, Counted, hour_due};
ghost use Rattle.reading.specs.Passages.{end_passage, Here, PassesRuns, PassesOperations};
ghost use Rattle.refusals.specs.Refusals.{fault_number, on_paper, told};

use crate::Report;
use calendar::Period;
use layout::{RecordType, Shape};
use lines::operation::OperationLine;
use refusals::{Fault, Refusal, at_line};

// How far the walk has come: the number of the next line, and where it starts, in bytes.
#[derive(Clone, Copy)]
struct Cursor {
    line: usize,
    at: usize,
}

// The 200 line of rank k.
fn hour_text(file: &[u8], n: usize, k: usize) -> &[u8]
    requires { Counted file.now n × (k < n) }
    ensures { result.now ≡ hour_line_in file.now k }
{
    let from = layout::FACILITY_BYTES + layout::SO2_BYTES * k;
    &file[from..from + layout::SO2_LENGTH]
}

// The 200 line by which the line of rank k of a type is judged: that of this rank, none for a type without date.
fn hour_due(file: &[u8], t: RecordType, n: usize, k: usize) -> &[u8]
    requires { Counted file.now n × (k < count_of (shape n) t) }
    ensures { result.now ≡ hour_due file.now t k }
{
    if layout::row_of(t).date == 0 {
        &file[..0]
    } else {
        hour_text(file, n, k)
    }
}

// The date of the operating hour of rank k, if there is one.
fn date_left(file: &[u8], n: usize, k: usize) -> &[u8]
    requires { Counted file.now n }
    ensures { result.now ≡ next_date (drop k (hour_lines_in file.now n)) }
{
    if k < n {
        let hour = hour_text(file, n, k);
        return &hour[layout::HOUR_FROM..layout::HOUR_TO];
    }
    &file[..0]
}

// The lines of the types from the place `first` on to the place `end`, behind n 200 lines; the 300 lines have a walk of their own.
fn walk_runs(
    file: &[u8],
    n: usize,
    first: usize,
    end: usize,
    start: Cursor,
) -> Result<Cursor, Refusal>
    requires { Counted file.now n × Here file.now start × (first ≤ end) × (end ≤ length order) }
    ensures { PassesRuns file.now n first end start (told on_paper result) }
{
    let facility = &file[..layout::FACILITY_LENGTH];
    let mut at = start.at;
    let mut line = start.line;
    for place in first..end {
        let t = layout::type_at(place);
        let count = layout::count_of(
            Shape {
                hours: n,
                operations: n,
            },
            t,
        );
        let row = layout::row_of(t);
        let picture = layout::picture_of(t);
        for k in 0..count {
            if file.len() <= at {
                return Err(Fault::Missing.at(line));
            }
            let due = lines::try_due(
                facility,
                hour_due(file, t, n, k),
                &file[at..],
                t,
                row,
                &picture,
            );
            at_line(due, line)?;
            at += row.length + 1;
            line += 1;
        }
    }
    Ok(Cursor { line, at })
}

// The 300 lines of so many operating hours are tried test by test before their picture is looked at: in a short file it costs more than it saves.
const FEW: usize = 16;

// Behind the last 300 line, with k of n operating hours read: the fault is the refusal's where one is missing.
#[tactic(auto, unfolding(crate::specs::Passages::end_passage))]
fn end_operations(
    n: usize,
    k: usize,
    fault: Fault,
    line: usize,
    at: usize,
) -> Result<Cursor, Refusal>
    ensures { told on_paper result ≡ end_passage n k (fault_number fault) line at }
{
    if n <= k {
        return Ok(Cursor { line, at });
    }
    Err(fault.at(line))
}

// The 300 lines, of n operating hours and any that are idle.
fn walk_operations(file: &[u8], period: Period, n: usize, start: Cursor) -> Result<Cursor, Refusal>
    requires { Counted file.now n × Here file.now start }
    ensures { PassesOperations file.now period n start (told on_paper result) }
{
    // The hour of each line is below this, so the next one does not overflow.
    prove!(period.hours() <= calendar::MOST_HOURS);
    let facility = &file[..layout::FACILITY_LENGTH];
    let picture = layout::picture_of(RecordType::Operation);
    let mut at = start.at;
    let mut line = start.line;
    let mut from = 0;
    let mut rank = 0;
    // No count of turns: each line is looked at in all that is left, and says how far the next one is.
    while at < file.len() {
        let rest = &file[at..];
        if !lines::shape::type_is(rest, RecordType::Operation) {
            return end_operations(n, rank, Fault::Type, line, at);
        }
        let said = lines::operation::operation_line(
            facility,
            rest,
            period,
            from,
            date_left(file, n, rank),
            FEW <= rank,
            &picture,
        );
        let operation = at_line(said, line)?;
        match operation {
            OperationLine::Idle(idle) => {
                from = idle + 1;
            }
            OperationLine::Operating(operating) => {
                from = operating + 1;
                rank += 1;
            }
        }
        at += layout::OPERATION_BYTES;
        line += 1;
    }
    end_operations(n, rank, Fault::Missing, line, at)
}

// The lines behind the last 300 line.
fn walk_last(file: &[u8], period: Period, s: Shape, start: Cursor) -> Result<Report, Refusal>
    requires { Counted file.now s.hours × Here file.now start }
    ensures { told on_paper result ≡ walk_last (facility_of file.now) period s start.line (hour_lines_in file.now s.hours)
        (lines (drop start.at file.now)) }
{
    let end = walk_runs(
        file,
        s.hours,
        layout::OPERATION_PLACE + 1,
        layout::TYPES,
        start,
    )?;
    if end.at < file.len() {
        return Err(Fault::Type.at(end.line));
    }
    Ok(Report { period, shape: s })
}

// The lines behind the last 220 line.
fn walk_listed(file: &[u8], period: Period, n: usize, start: Cursor) -> Result<Report, Refusal>
    requires { Counted file.now n × Here file.now start }
    ensures { told on_paper result ≡ walk_listed (facility_of file.now) period start.line (hour_lines_in file.now n)
        (lines (drop start.at file.now)) }
{
    let next = walk_operations(file, period, n, start)?;
    walk_last(
        file,
        period,
        Shape {
            hours: n,
            operations: next.line - start.line,
        },
        next,
    )
}

// The lines behind n 200 lines.
fn walk_later(file: &[u8], period: Period, n: usize) -> Result<Report, Refusal>
    requires { Counted file.now n }
    ensures { told on_paper result ≡ walk_later (facility_of file.now) period (2 + n) (hour_lines_in file.now n)
        (lines (drop (hour_start n) file.now)) }
{
    let next = walk_runs(
        file,
        n,
        layout::SO2_PLACE + 1,
        layout::OPERATION_PLACE,
        Cursor {
            line: 2 + n,
            at: layout::FACILITY_BYTES + layout::SO2_BYTES * n,
        },
    )?;
    walk_listed(file, period, n, next)
}

// The lines behind the facility line: as many 200 lines as there are, and the others.
pub fn walk_hours(file: &[u8], period: Period) -> Result<Report, Refusal>
    requires { length_of RecordType.Facility ≤ length file.now }
    ensures { told on_paper result ≡ walk_hours (facility_of file.now) period 2 0 [] (lines (drop (hour_start 0) file.now)) }
{
    // The hour of each line is below this, so the next one does not overflow.
    prove!(period.hours() <= calendar::MOST_HOURS);
    let facility = &file[..layout::FACILITY_LENGTH];
    let mut n = 0;
    let mut from = 0;
    let mut at = layout::FACILITY_BYTES;
    // As in the walk over the 300 lines.
    while at < file.len() {
        let rest = &file[at..];
        if !lines::shape::type_is(rest, RecordType::So2Concentration) {
            return walk_later(file, period, n);
        }
        let hour = at_line(lines::hour_line(facility, rest, period, from), 2 + n)?;
        from = hour + 1;
        n += 1;
        at += layout::SO2_BYTES;
    }
    walk_later(file, period, n)
}
