// The sheet: six words to an operating hour, each with its kind in the top three of 32 bits and its value in the others. The tests of 31
// and 32 are here; the writer says in which order they refuse.
#![tactic(auto)]

ghost use Rattle.std.specs.Prelude.{◌≡◌, ◌+◌, ◌*◌, ◌≤◌, ◌<◌, length, get_or};
ghost use Rattle.sheet.specs.Sheet.{value_size, kind_size, word_value, apart, word_of, hour_words, sheet_hour, recorded_readings, shape_of};
ghost use Rattle.sheet.specs.SheetTests.{heading_holds, hour_kinds, hour_holds, readings_hold};

use formulas::hour::Readings;
use layout::{Shape, values};

// An hour's words: hour and time, SO2, NOx, CO2, flow, Fc.
pub const HOUR_WORDS: usize = 6;

// A word is its kind times this and its value.
pub const VALUE_SIZE: u64 = 536870912;

// The kinds of an hour's readings, each the place of its word in the hour. Numbers, since a word may say any of eight.
pub const SO2_KIND: u64 = 1;

pub const NOX_KIND: u64 = 2;

pub const CO2_KIND: u64 = 3;

pub const FLOW_KIND: u64 = 4;

// The first value of an hour is the hour of the quarter times this and the time.
pub const TIME_SIZE: u64 = 128;

// A word of the sheet taken apart.
#[derive(Clone, Copy)]
pub struct Word {
    pub kind: u64,
    pub value: u64,
}

// One operating hour as the sheet has it: the hour of the quarter (0 first), the time in hundredths of an hour, SO2, NOx and CO2 in tenths,
// flow in scfh, Fc in tenths.
#[derive(Clone, Copy)]
pub struct SheetHour {
    pub hour: u64,
    pub time: u64,
    pub so2: u64,
    pub nox: u64,
    pub co2: u64,
    pub scfh: u64,
    pub fc: u64,
}

pub fn word_apart(word: u32) -> Word
    ensures { result ≡ apart word }
{
    let bits = u64::from(word);
    Word {
        kind: bits / VALUE_SIZE,
        value: bits % VALUE_SIZE,
    }
}

// The word of a kind and a value.
pub fn word_of(kind: u64, value: u64) -> u32
    requires { (kind < kind_size) × (value < value_size) }
    ensures { result ≡ word_of kind value }
{
    (VALUE_SIZE * kind + value) as u32
}

fn word_value(sheet: &[u32], i: usize) -> u64
    requires { i < length sheet.now }
    ensures { result ≡ word_value (get_or sheet.now i 0) }
{
    word_apart(sheet[i]).value
}

// The k-th hour of the sheet, from 0.
#[tactic(auto, unfolding(crate::specs::Sheet::sheet_hour_in))]
pub fn hour_at(sheet: &[u32], k: usize) -> SheetHour
    requires { hour_words * k + hour_words ≤ length sheet.now }
    ensures { result ≡ sheet_hour sheet.now k }
{
    let first = HOUR_WORDS * k;
    let hour = word_value(sheet, first);
    SheetHour {
        hour: hour / TIME_SIZE,
        time: hour % TIME_SIZE,
        so2: word_value(sheet, first + 1),
        nox: word_value(sheet, first + 2),
        co2: word_value(sheet, first + 3),
        scfh: values::FLOW_SCFH.step * word_value(sheet, first + 4),
        fc: word_value(sheet, first + 5),
    }
}

// The readings of an hour, as they are recorded.
pub fn recorded_readings(h: SheetHour) -> Readings
    ensures { result ≡ recorded_readings h }
{
    Readings {
        so2: h.so2,
        nox: h.nox,
        co2: h.co2,
        flow: values::thousands_of(h.scfh),
        fc: h.fc,
    }
}

// The shape of a sheet's report.
pub fn shape_of(sheet: &[u32]) -> Shape
    ensures { result ≡ shape_of sheet.now }
{
    let hours = sheet.len() / HOUR_WORDS;
    Shape {
        hours,
        operations: hours,
    }
}

// 31: year, quarter and stack name.
#[tactic(auto, unfolding(crate::specs::SheetTests::heading_holds))]
pub fn heading_holds(name: &[u8], year: u64, quarter: u64) -> bool
    ensures { result ≡ heading_holds year quarter name.now }
{
    values::within(values::YEAR, year)
        && values::within(values::QUARTER, quarter)
        && !columns::all_blank(name)
        && columns::all_printable(name)
}

// 31: the kinds of the words of the k-th hour are 0, 1 and so on.
#[tactic(auto, using(crate::proofs::Words::kinds_end))]
pub fn kinds_hold(sheet: &[u32], k: usize) -> bool
    requires { hour_words * k + hour_words ≤ length sheet.now }
    ensures { result ≡ hour_kinds sheet.now k }
{
    let first = HOUR_WORDS * k;
    for j in 0..HOUR_WORDS {
        if word_apart(sheet[first + j]).kind != j as u64 {
            return false;
        }
    }
    true
}

// 31: an hour that is to rise from `from` on and lie below a number.
#[tactic(auto, unfolding(crate::specs::SheetTests::hour_holds))]
pub fn hour_holds(below: u64, from: u64, h: SheetHour) -> bool
    ensures { result ≡ hour_holds below from h }
{
    from <= h.hour && h.hour < below
}

// 32: time and readings lie in their ranges, and the flow is a whole thousand.
#[tactic(auto, unfolding(crate::specs::SheetTests::readings_hold_in))]
pub fn readings_hold(h: SheetHour) -> bool
    ensures { result ≡ readings_hold h }
{
    values::within(values::TIME_HOURS, h.time)
        && values::within(values::SO2_PPM, h.so2)
        && values::within(values::NOX_PPM, h.nox)
        && values::within(values::CO2_PERCENT, h.co2)
        && values::within(values::FLOW_SCFH, h.scfh)
        && values::within(values::F_FACTOR, h.fc)
}
