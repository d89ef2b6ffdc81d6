// The records of a report, each written into its own part of the lent buffer.
#![tactic(auto)]

ghost use Rattle.std.specs.Prelude.{◌≡◌, ◌+◌, ◌≤◌, ◌<◌, length, take};
ghost use Rattle.columns.specs.Columns.{put};
ghost use Rattle.columns.specs.Written.{digits_of};
ghost use Rattle.layout.specs.Layout.{length_of, date_column, stack_width, date_width, value_count, values_of, offset_of};
ghost use Rattle.formulas.specs.Hour.{ReadingsWithin};
ghost use Rattle.records.specs.Records.{headed, valued, ended, facility_record, hour_values, dated_record, totals_record};
ghost use Rattle.records.specs.Room.{HourFits};

use formulas::hour::Hour;
use layout::{RecordType, Shape, values};
use totals::Quarter;

// These are inlined into a call of its own for each type, which is then a constant in them: else a report takes 2.4 times the instructions.

// Type and stack name in an otherwise blank record.
#[inline(always)]
fn write_heading(line: &mut [u8], name: &[u8; layout::STACK_WIDTH], t: RecordType)
    requires { (length line.old ≡ length_of t) }
    ensures { line.new ≡ headed t name.now }
{
    filling::fill_with(line, 32);
    filling::write_digits(
        line,
        layout::TYPE_START,
        layout::TYPE_WIDTH,
        layout::type_code(t),
    );
    filling::write_bytes(line, layout::STACK_START, name);
}

// A record's values in their columns.
#[inline(always)]
fn write_values(line: &mut [u8], t: RecordType, values: &[u64])
    requires { (length line.old ≡ length_of t) × (length values.now ≡ value_count t) }
    ensures { line.new ≡ valued (values_of t) values.now line.old }
{
    for (i, value) in values.iter().enumerate() {
        let v = layout::value_at(t, i);
        filling::write_number(line, v.start, v.width, v.decimals, *value);
    }
}

fn facility_record(line: &mut [u8], name: &[u8; layout::STACK_WIDTH], year: u64, quarter: u64)
    requires { (length line.old ≡ length_of RecordType.Facility) }
    ensures { line.new ≡ facility_record year quarter name.now }
{
    write_heading(line, name, RecordType::Facility);
    filling::write_digits(line, values::YEAR.start, values::YEAR.width, year);
    filling::write_digits(line, values::QUARTER.start, values::QUARTER.width, quarter);
}

// The values of an hour in its record of a type, which has a date.
#[inline(always)]
fn write_hour_values(line: &mut [u8], t: RecordType, h: Hour)
    requires { (length line.old ≡ length_of t) × (1 ≤ date_column t) × ReadingsWithin h.readings }
    ensures { line.new ≡ valued (values_of t) (hour_values t h) line.old }
{
    match t {
        RecordType::Facility | RecordType::QuarterTotals => {}
        RecordType::So2Concentration => write_values(line, t, &[h.readings.so2]),
        RecordType::NoxConcentration => write_values(line, t, &[h.readings.nox]),
        RecordType::Co2Concentration => write_values(line, t, &[h.readings.co2]),
        RecordType::VolumetricFlow => write_values(line, t, &[values::scfh_of(h.readings.flow)]),
        RecordType::Operation => write_values(line, t, &[h.time, h.figures.heat]),
        RecordType::So2Mass => write_values(line, t, &[h.figures.so2]),
        RecordType::NoxRate => write_values(line, t, &[h.readings.fc, h.figures.nox]),
        RecordType::Co2Mass => write_values(line, t, &[h.figures.co2]),
    }
}

// The record of an hour, whose date is a number of eight digits.
#[inline(always)]
fn hour_record(line: &mut [u8], name: &[u8; layout::STACK_WIDTH], t: RecordType, date: u64, h: Hour)
    requires { (length line.old ≡ length_of t) × (1 ≤ date_column t) × ReadingsWithin h.readings }
    ensures { line.new ≡ dated_record name.now t (digits_of date_width date) h }
{
    write_heading(line, name, t);
    filling::write_digits(line, layout::date_column(t), layout::DATE_WIDTH, date);
    write_hour_values(line, t, h);
}

fn totals_record(line: &mut [u8], name: &[u8; layout::STACK_WIDTH], q: Quarter)
    requires { (length line.old ≡ length_of RecordType.QuarterTotals) }
    ensures { line.new ≡ totals_record name.now q }
{
    write_heading(line, name, RecordType::QuarterTotals);
    write_values(
        line,
        RecordType::QuarterTotals,
        &[q.so2, q.co2, q.heat, q.nox, q.nox_tons],
    );
}

pub fn write_facility(buffer: &mut [u8], name: &[u8; layout::STACK_WIDTH], year: u64, quarter: u64)
    requires { (length_of RecordType.Facility < length buffer.old) }
    ensures { buffer.new ≡ put 1 (ended (facility_record year quarter name.now)) buffer.old }
{
    let end = layout::line_length(RecordType::Facility);
    facility_record(&mut buffer[0..end], name, year, quarter);
    buffer[end] = 10;
}

// The line of a type of hour k.
#[inline(always)]
pub fn write_hour(
    buffer: &mut [u8],
    name: &[u8; layout::STACK_WIDTH],
    s: Shape,
    t: RecordType,
    k: usize,
    date: u64,
    h: Hour,
)
    requires { HourFits s k name.now buffer.old × (1 ≤ date_column t) × ReadingsWithin h.readings }
    ensures { buffer.new
        ≡ put (offset_of s t k + 1) (ended (dated_record name.now t (digits_of date_width date) h)) buffer.old }
{
    let at = layout::offset_of(s, t, k);
    let end = at + layout::line_length(t);
    hour_record(&mut buffer[at..end], name, t, date, h);
    buffer[end] = 10;
}

pub fn write_totals(buffer: &mut [u8], name: &[u8; layout::STACK_WIDTH], at: usize, q: Quarter)
    requires { (at + length_of RecordType.QuarterTotals < length buffer.old) }
    ensures { buffer.new ≡ put (at + 1) (ended (totals_record name.now q)) buffer.old }
{
    let end = at + layout::line_length(RecordType::QuarterTotals);
    totals_record(&mut buffer[at..end], name, q);
    buffer[end] = 10;
}
