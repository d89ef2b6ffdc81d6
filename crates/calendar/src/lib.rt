// Gregorian dates and the hours of a quarter. The first hour of a quarter is 0.
#![tactic(auto)]

ghost use Rattle.std.specs.Prelude.{◌≡◌, ◌+◌, ◌≤◌, ◌<◌};
ghost use Rattle.calendar.specs.Calendar.{IsQuarter, TwoDigits, most_hours, leap_year, days_in_month, first_month, hours_in_quarter, days_before};
ghost use Rattle.calendar.specs.Calendar.{quarter_hour, date_of_hour, period_of};

use std::marker::Model;

// No quarter has more hours.
pub const MOST_HOURS: u64 = 2208;

// A date and hour of a year that is known beside it: month and day count from 1, the hour from 0.
#[derive(Clone, Copy)]
pub struct Date {
    pub month: u64,
    pub day: u64,
    pub hour: u64,
}

// A quarter of a year, 1 to 4.
#[derive(Clone, Copy)]
pub struct Period {
    pub year: u64,
    quarter: u64,
}

impl Model for Period {
    ghost use Rattle.calendar.specs.Calendar.{Period, IsQuarter};

    ghost Value = { Period };

    ghost view = { λ p. record { year = p.year; quarter = p.quarter } };

    ghost invariant = { λ p. IsQuarter p.quarter };

    ghost inverse = { λ p. record { year = p.year; quarter = p.quarter } };
}

#[tactic(auto, unfolding(crate::specs::Calendar::leap_year))]
pub fn is_leap(year: u64) -> bool
    ensures { result ≡ leap_year year }
{
    if year % 4 != 0 {
        return false;
    }
    if year % 100 != 0 {
        return true;
    }
    year % 400 == 0
}

pub fn days_in_month(year: u64, month: u64) -> u64
    ensures { result ≡ days_in_month year month }
{
    match month {
        2 => { if is_leap(year) { 29 } else { 28 } }
        4 | 6 | 9 | 11 => 30,
        _ => 31,
    }
}

// The days of the quarter that starts with the month `first`, before a month of it.
fn days_before(year: u64, first: u64, month: u64) -> u64
    requires { (first ≤ 10) × (first ≤ month) × (month ≤ first + 2) }
    ensures { result ≡ days_before year first month }
{
    if month == first {
        return 0;
    }
    let days = days_in_month(year, first);
    if month == first + 1 {
        return days;
    }
    days + days_in_month(year, first + 1)
}

impl Period {
    pub fn new(year: u64, quarter: u64) -> Self
        requires { IsQuarter quarter }
        ensures { result ≡ period_of year quarter }
    {
        Period { year, quarter }
    }

    // Which of the four it is.
    pub fn quarter(self) -> u64
        ensures { result ≡ self.quarter }
    {
        self.quarter
    }

    fn first_month(self) -> u64
        ensures months { result ≡ first_month self.quarter }
        ensures most { result ≤ 10 }
    {
        3 * (self.quarter - 1) + 1
    }

    pub fn hours(self) -> u64
        ensures hours { result ≡ hours_in_quarter self.year self.quarter }
        ensures most { result ≤ most_hours }
    {
        let first = self.first_month();
        24 * (days_in_month(self.year, first)
            + days_in_month(self.year, first + 1)
            + days_in_month(self.year, first + 2))
    }

    // The hour of the quarter at which a date lies, if it is one of it; its month, day and hour may be any numbers.
    pub fn hour_of(self, date: Date) -> Option<u64>
        ensures { result ≡ quarter_hour self.year self.quarter date }
    {
        let first = self.first_month();
        let month = date.month;
        if month < first {
            return None;
        }
        if first + 2 < month {
            return None;
        }
        if date.day < 1 {
            return None;
        }
        if days_in_month(self.year, month) < date.day {
            return None;
        }
        if 23 < date.hour {
            return None;
        }
        Some(24 * (days_before(self.year, first, month) + (date.day - 1)) + date.hour)
    }

    // The date of an hour of the quarter.
    pub fn date_of(self, hour: u64) -> Date
        requires { hour < hours_in_quarter self.year self.quarter }
        ensures date { result ≡ date_of_hour self.year self.quarter hour }
        ensures digits { TwoDigits result }
    {
        let first = self.first_month();
        let day = hour / 24;
        // The days on which the second and the third month start, the first day being 0.
        let second = days_in_month(self.year, first);
        if day < second {
            return Date {
                month: first,
                day: day + 1,
                hour: hour % 24,
            };
        }
        let third = second + days_in_month(self.year, first + 1);
        if day < third {
            return Date {
                month: first + 1,
                day: day - second + 1,
                hour: hour % 24,
            };
        }
        Date {
            month: first + 2,
            day: day - third + 1,
            hour: hour % 24,
        }
    }
}
