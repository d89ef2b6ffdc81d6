// The boundary for C and Rust: the check, the writer, the year to date, a recorder's hour and a kept sheet on plain numbers and slices.
#![tactic(auto)]

ghost use Rattle.std.specs.Prelude.{◌≡◌, ◌≤◌, ◌<◌, length, get_or};
ghost use Rattle.std.specs.Float.{nan};
ghost use Rattle.edr_c.specs.Boundary.{answer_length, year_length, check_code, check_filled, write_code, write_filled};
ghost use Rattle.edr_c.specs.Boundary.{quarter_in, year_in, year_code, year_filled};
ghost use Rattle.conversion.specs.Conversion.{converted, conversion_answer, converted_number};
ghost use Rattle.edr_c.specs.RecorderCall.{reading_in, recorder_code, recorder_filled};

use annual::YearToDate;
use recorder::{RecorderHour, RecorderReading};
use refusals::WriteRefusal;
use totals::Quarter;

// The numbers of an answer.
const ANSWER_LENGTH: usize = 6;

// The numbers of a year's record.
const YEAR_LENGTH: usize = 7;

// The readings of an hour, and the numbers of its answer.
const READINGS: usize = 4;

const WORDS_LENGTH: usize = 5;

// The states of a reading: 0 measured, 1 substituted, 2 absent.
const MEASURED: u8 = 0;

const SUBSTITUTED: u8 = 1;

const ABSENT: u8 = 2;

// 1 and n, SO2, CO2, heat, mean and NOx tons in answer[0..6] where the report is accepted; 0 and number and line in answer[0..2] where it
// is refused; 2, with nothing written, where the answer has fewer than six elements. Elements beyond keep their values.
#[unsafe(no_mangle)]
pub extern "C" fn edr_check(file: &[u8], answer: &mut [u64]) -> u64
    ensures { (result ≡ check_code file.now answer.old)
        × (answer.new ≡ check_filled file.now answer.old) }
{
    if answer.len() < ANSWER_LENGTH {
        return 2;
    }
    match checker::check(file) {
        Ok(quarter) => {
            answer[..ANSWER_LENGTH].copy_from_slice(&[
                quarter.hours,
                quarter.so2,
                quarter.co2,
                quarter.heat,
                quarter.nox,
                quarter.nox_tons,
            ]);
            1
        }
        Err(refusal) => {
            answer[..2].copy_from_slice(&[refusal.fault.number(), refusal.line as u64]);
            0
        }
    }
}

// The length of the report written, which is 75 or more, or the number of the refusal. A name of another length than six is 31.
#[unsafe(no_mangle)]
pub extern "C" fn edr_write(
    year: u64,
    quarter: u64,
    name: &[u8],
    sheet: &[u32],
    buffer: &mut [u8],
) -> u64
    ensures { (result ≡ write_code year quarter name.now sheet.now buffer.old)
        × (buffer.new ≡ write_filled year quarter name.now sheet.now buffer.old) }
{
    let Ok(letters) = <[u8; layout::STACK_WIDTH]>::try_from(name) else {
        return WriteRefusal::Sheet.number();
    };
    match writer::write(year, quarter, letters, sheet, buffer) {
        Ok(length) => length as u64,
        Err(refusal) => refusal.number(),
    }
}

// An accepted answer, as `edr_check` leaves it.
fn quarter_in(numbers: &[u64]) -> Quarter
    requires { answer_length ≤ length numbers.now }
    ensures { result ≡ quarter_in numbers.now }
{
    Quarter {
        hours: numbers[0],
        so2: numbers[1],
        co2: numbers[2],
        heat: numbers[3],
        nox: numbers[4],
        nox_tons: numbers[5],
    }
}

// A year's record, as `edr_year_to_date` leaves it.
fn year_in(numbers: &[u64]) -> YearToDate
    requires { year_length ≤ length numbers.now }
    ensures { result ≡ year_in numbers.now }
{
    YearToDate {
        year: numbers[0],
        quarter: numbers[1],
        hours: numbers[2],
        so2: numbers[3],
        co2: numbers[4],
        heat: numbers[5],
        nox_tons: numbers[6],
    }
}

// 1 and year, quarter, hours, SO2, CO2, heat and NOx tons in record[0..7] where the quarter is joined to the previous record; 0 and the
// number in record[0] where it is refused; 2, with nothing written, where previous, answer or record has fewer than its seven, six or seven
// elements. Elements beyond keep their values.
#[unsafe(no_mangle)]
pub extern "C" fn edr_year_to_date(
    previous: &[u64],
    answer: &[u64],
    year: u64,
    quarter: u64,
    record: &mut [u64],
) -> u64
    ensures { (result ≡ year_code previous.now answer.now year quarter «record».old)
        × («record».new ≡ year_filled previous.now answer.now year quarter «record».old) }
{
    if previous.len() < YEAR_LENGTH || answer.len() < ANSWER_LENGTH || record.len() < YEAR_LENGTH {
        return 2;
    }
    match annual::join(year_in(previous), year, quarter, quarter_in(answer)) {
        Ok(joined) => {
            record[..YEAR_LENGTH].copy_from_slice(&[
                joined.year,
                joined.quarter,
                joined.hours,
                joined.so2,
                joined.co2,
                joined.heat,
                joined.nox_tons,
            ]);
            1
        }
        Err(refusal) => {
            record[0] = refusal.number();
            0
        }
    }
}

// A reading by its state. The float of an absent one is not looked at.
fn reading_in(states: &[u8], readings: &[f64], i: usize) -> RecorderReading
    requires { (i < length states.now) × (i < length readings.now) }
    ensures { result ≡ reading_in (get_or states.now i 0) (get_or readings.now i nan) }
{
    match states[i] {
        MEASURED => RecorderReading::Measured(readings[i]),
        SUBSTITUTED => RecorderReading::Substituted(readings[i]),
        _ => RecorderReading::Absent,
    }
}

// 1 and the words of SO2, NOx, CO2 and flow and the number of substituted readings in answer[0..5]; 0 and the number in answer[0] where
// the hour is refused; 2, with nothing written, for a state that is none, states or readings that are not four, or an answer of fewer than
// five elements. Elements beyond keep their values.
#[unsafe(no_mangle)]
pub extern "C" fn edr_recorder_words(states: &[u8], readings: &[f64], answer: &mut [u32]) -> u64
    ensures { (result ≡ recorder_code states.now readings.now answer.old)
        × (answer.new ≡ recorder_filled states.now readings.now answer.old) }
{
    if states.len() != READINGS || readings.len() != READINGS || answer.len() < WORDS_LENGTH {
        return 2;
    }
    // With `all` the step to the definition, which goes over the list, did not close.
    let known = (states[0] <= ABSENT)
        & (states[1] <= ABSENT)
        & (states[2] <= ABSENT)
        & (states[3] <= ABSENT);
    if !known {
        return 2;
    }
    let hour = RecorderHour {
        so2: reading_in(states, readings, 0),
        nox: reading_in(states, readings, 1),
        co2: reading_in(states, readings, 2),
        flow: reading_in(states, readings, 3),
    };
    match recorder::hour_words(hour) {
        Ok(words) => {
            answer[..WORDS_LENGTH].copy_from_slice(&[
                words.so2,
                words.nox,
                words.co2,
                words.flow,
                words.substituted,
            ]);
            1
        }
        Err(refusal) => {
            answer[0] = refusal.number() as u32;
            0
        }
    }
}

// 0 where the sheet is converted, or the number of the refusal, with every word as it was.
#[unsafe(no_mangle)]
pub extern "C" fn edr_convert(sheet: &mut [u32]) -> u64
    ensures { (result ≡ converted_number (conversion_answer sheet.old)) × (sheet.new ≡ converted sheet.old) }
{
    match conversion::convert(sheet) {
        Ok(()) => 0,
        Err(refusal) => refusal.number(),
    }
}
