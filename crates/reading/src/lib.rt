// File and line checks of a quarterly report: refusals 1 to 10, 43, 47 and 49.
#![tactic(auto)]

mod walk;

ghost use Rattle.std.specs.Prelude.{◌≡◌};
ghost use Rattle.reading.specs.Reading.{read_of};
ghost use Rattle.refusals.specs.Refusals.{on_paper, told};

use calendar::Period;
use layout::Shape;
use refusals::{Fault, Refusal, at_line};

// A report whose lines are right. Its operating hours are its 200 lines.
#[derive(Clone, Copy)]
pub struct Report {
    pub period: Period,
    pub shape: Shape,
}

// The first fault of the file and its lines, or what the report says of itself.
pub fn read(file: &[u8]) -> Result<Report, Refusal>
    ensures { told on_paper result ≡ read_of file.now }
{
    let Some(last) = file.last() else {
        return Err(Fault::Unfinished.at(0));
    };
    if *last != 10 {
        return Err(Fault::Unfinished.at(0));
    }
    let period = at_line(lines::facility_line(file), 1)?;
    walk::walk_hours(file, period)
}
