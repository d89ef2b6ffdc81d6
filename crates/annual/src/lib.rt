// The year to date: a year's record, quarter by quarter.
#![tactic(auto)]

ghost use Rattle.std.specs.Prelude.{◌≡◌, ◌+◌, ◌≤◌, ◌<◌, MatchResult};
ghost use Rattle.refusals.specs.Refusals.{told, join_number};
ghost use Rattle.annual.specs.Joined.{year_limit, all_zeros, follows, joined_of};

use layout::values;
use refusals::JoinRefusal;
use totals::Quarter;

// A year after some of its quarters: the last of them (0 before the first), their operating hours, and SO2 tons, CO2 tons, heat input and
// NOx tons in tenths.
#[derive(Clone, Copy)]
pub struct YearToDate {
    pub year: u64,
    pub quarter: u64,
    pub hours: u64,
    pub so2: u64,
    pub co2: u64,
    pub heat: u64,
    pub nox_tons: u64,
}

// No sum may be more, in tenths.
const YEAR_LIMIT: u64 = 9999999999;

// Whether a record has neither hours nor amounts.
#[tactic(auto, unfolding(crate::specs::Joined::all_zeros))]
fn all_zeros(y: YearToDate) -> bool
    ensures { result ≡ all_zeros y }
{
    (y.hours == 0) & (y.so2 == 0) & (y.co2 == 0) & (y.heat == 0) & (y.nox_tons == 0)
}

// Whether a quarter's answer follows a record.
#[tactic(auto, unfolding(crate::specs::Joined::follows))]
fn follows(previous: YearToDate, year: u64, quarter: u64, answer: Quarter) -> bool
    ensures { result ≡ follows previous year quarter answer }
{
    if !values::within(values::QUARTER, quarter) || previous.quarter != quarter - 1 {
        return false;
    }
    // With `&&` each test is a goal of its own, and these did not close.
    (previous.year == year)
        & ((previous.quarter != 0) | all_zeros(previous))
        & (answer.hours <= calendar::MOST_HOURS)
        & (previous.hours <= calendar::MOST_HOURS * previous.quarter)
}

// Two amounts together, unless they come to more than a sum may be.
fn sum(previous: u64, added: u64) -> Result<u64, JoinRefusal>
    ensures { MatchResult result
        (λ s. (s ≡ previous + added) × (s ≤ year_limit))
        (λ e. (e ≡ JoinRefusal.Sum) × (year_limit < previous + added)) }
{
    previous
        .checked_add(added)
        .filter(|total| *total <= YEAR_LIMIT)
        .ok_or(JoinRefusal::Sum)
}

// A year's record with the answer of an accepted quarter added; its mean is not carried.
#[tactic(auto, using(crate::proofs::Tests::joining))]
pub fn join(
    previous: YearToDate,
    year: u64,
    quarter: u64,
    answer: Quarter,
) -> Result<YearToDate, JoinRefusal>
    ensures { told join_number result ≡ joined_of previous year quarter answer }
{
    if !follows(previous, year, quarter, answer) {
        return Err(JoinRefusal::Order);
    }
    Ok(YearToDate {
        year,
        quarter,
        hours: previous.hours + answer.hours,
        so2: sum(previous.so2, answer.so2)?,
        co2: sum(previous.co2, answer.co2)?,
        heat: sum(previous.heat, answer.heat)?,
        nox_tons: sum(previous.nox_tons, answer.nox_tons)?,
    })
}
