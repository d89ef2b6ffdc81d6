// The check of a quarterly stack report: file and lines, then every hour's figures, then the totals.
#![tactic(auto)]

ghost use Rattle.std.specs.Prelude.{◌≡◌};
ghost use Rattle.checker.specs.Checked.{line_named, verdict_on, judged, checked};
ghost use Rattle.checker.specs.Promise.{Promise};
ghost use Rattle.checker.specs.Judging.{Judgeable, NamesRecord};
ghost use Rattle.judging.specs.Judged.{failure_told, rank_told};
ghost use Rattle.refusals.specs.Refusals.{fault_number, on_paper, told};

use judging::Failure;
use layout::RecordType;
use recorded::Records;
use refusals::Refusal;
use totals::{Quarter, Totals};

// The verdict on the hours and totals of a file. The hour pass carries the place of the next 300 line beside the rank.
// It is abandoned at the first figure that fails, and yields that figure's refusal and its hour.
fn verdict(records: Records) -> Result<Quarter, Failure>
    requires { Judgeable records.file.now records.shape }
    ensures { told failure_told result ≡ verdict_on records.entry.file.now }
{
    let mut totals = Totals::none();
    let mut from = 0;
    let failed = 'hours: {
        for k in 0..records.shape.hours {
            let at = records.operating_from(from);
            let hour = records.hour(k, at);
            for figure in judging::figures() {
                if !formulas::figure_passes(figure.quantity, hour) {
                    break 'hours Some(Failure {
                        fault: figure.fault,
                        hour: Some(k),
                    });
                }
            }
            totals = totals.with_hour(hour.figures, hour.time);
            from = at.place + 1;
        }
        None
    };
    match failed {
        Some(failure) => Err(failure),
        None => judging::compare(totals.quarter(), records.totals()),
    }
}

// The line of a failure: of a total line 301, else the record of the type that its fault names, in its hour.
fn failure_line(records: Records, f: Failure) -> usize
    requires { NamesRecord records.file.now (failure_told f) }
    ensures { result ≡ line_named records.entry.file.now (fault_number f.fault) (rank_told f.hour) }
{
    match f.hour {
        None => layout::line_of(records.shape, RecordType::QuarterTotals, 0),
        Some(k) => {
            let t = judging::type_named(f.fault.number());
            let place = records.place_of(t, k);
            layout::line_of(records.shape, t, place)
        }
    }
}

// The verdict as an answer: its hour becomes a line.
fn judge(records: Records) -> Result<Quarter, Refusal>
    requires { Judgeable records.file.now records.shape }
    ensures { told on_paper result ≡ judged records.entry.file.now }
{
    match verdict(records) {
        Ok(formed) => Ok(formed),
        Err(failure) => Err(failure.fault.at(failure_line(records, failure))),
    }
}

// What the check answers to a file: an acceptance, with the operating hours and totals, or a refusal.
pub fn check(file: &[u8]) -> Result<Quarter, Refusal>
    ensures { (told on_paper result ≡ checked file.now) × Promise file.now (told on_paper result) }
{
    let shape = reading::read(file)?.shape;
    judge(Records { file, shape })
}
