// A date and hour as a record has it: YYMMDDHH.
#![tactic(auto)]

ghost use Rattle.std.specs.Prelude.{◌≡◌, ◌^◌, ◌<◌};
ghost use Rattle.calendar.specs.Calendar.{hours_in_quarter, TwoDigits};
ghost use Rattle.columns.specs.Columns.{Inside, columns};
ghost use Rattle.columns.specs.Number.{digits_only};
ghost use Rattle.layout.specs.Layout.{date_width};
ghost use Rattle.stamp.specs.Stamp.{stamp_hour, date_number, stamp_number};
ghost use Rattle.stamp.specs.Pairs.{pair_width, pair_field};

use calendar::{Date, Period};

// YY, MM, DD and HH have so many columns each.
const PAIR_WIDTH: usize = 2;

// No year's last two digits, no month, no day and no hour of a day.
const NO_PAIR: u64 = 100;

// What two bytes `0` make, as tens and units.
const ZEROS: u64 = 10 * 48 + 48;

// The number in two columns, and 100 or more where they are not digits.
fn two_digits(line: &[u8], start: usize) -> u64
    requires { Inside start pair_width line.now }
    ensures { pair_field result ≡ digits_only (columns start pair_width line.now) }
{
    let units = u64::from(line[start]);
    if units < 48 {
        return NO_PAIR;
    }
    if 57 < units {
        return NO_PAIR;
    }
    // Tens that are no digit make 100 or more; those that come before the digits wrap round.
    std::num::wrapping_sub_u64(10 * u64::from(line[start - 1]) + units, ZEROS)
}

// The hour of the quarter on a line, with its first column.
pub fn read_stamp(line: &[u8], start: usize, period: Period) -> Option<u64>
    requires { Inside start date_width line.now }
    ensures { result ≡ stamp_hour period.year period.quarter (columns start date_width line.now) }
{
    let month_start = start + PAIR_WIDTH;
    let day_start = month_start + PAIR_WIDTH;
    let hour_start = day_start + PAIR_WIDTH;
    let year_digits = two_digits(line, start);
    let date = Date {
        month: two_digits(line, month_start),
        day: two_digits(line, day_start),
        hour: two_digits(line, hour_start),
    };
    if year_digits != period.year % 100 {
        return None;
    }
    period.hour_of(date)
}

// The number that the eight digits of a date are.
fn date_number(year: u64, date: Date) -> u64
    requires { TwoDigits date }
    ensures { result ≡ date_number year date }
{
    1000000 * (year % 100) + 10000 * date.month + 100 * date.day + date.hour
}

// The number that the eight digits of an hour of the quarter are.
pub fn stamp_number(period: Period, hour: u64) -> u64
    requires { hour < hours_in_quarter period.year period.quarter }
    ensures { result ≡ stamp_number period.year period.quarter hour }
{
    date_number(period.year, period.date_of(hour))
}
