// The report, in one pass over the sheet: each hour's lines at their offsets, and its figures into the totals.
ghost use Rattle.std.specs.Prelude.{◌≡◌};
ghost use Rattle.columns.specs.Columns.{put};
ghost use Rattle.columns.specs.Written.{digits_of};
ghost use Rattle.formulas.specs.Hour.{ReadingsWithin};
ghost use Rattle.layout.specs.Layout.{date_width, order, hourly};
ghost use Rattle.records.specs.Room.{HourFits};
ghost use Rattle.sheet.specs.Sheet.{recorded_readings, shape_of, sheet_hours};
ghost use Rattle.totals.specs.Totals.{quarter_totals};
ghost use Rattle.writer.specs.Recorded.{recorded_hour, recorded_hours, report_hours};
ghost use Rattle.writer.specs.Writable.{Fits};
ghost use Rattle.writer.specs.Written.{report};
ghost use Rattle.writer.specs.HourLines.{hour_lines, hours_lines};

use calendar::Period;
use formulas::hour::Hour;
use layout::{RecordType, Shape};
use sheet::SheetHour;
use totals::{Quarter, Totals};

// An hour as it is recorded: its figures are the formulas of its readings, rounded.
fn recorded_hour(h: SheetHour) -> Hour
    requires { ReadingsWithin (recorded_readings h) }
    ensures { result ≡ recorded_hour h }
{
    let readings = sheet::recorded_readings(h);
    Hour {
        time: h.time,
        gas: false,
        readings,
        figures: formulas::rounded_figures(readings),
    }
}

// The lines of hour k. Each by a call of its own: with a `for` over the types a report takes 1.9 times the instructions.
fn write_hour_lines(
    buffer: &mut [u8],
    name: &[u8; layout::STACK_WIDTH],
    s: Shape,
    k: usize,
    date: u64,
    h: Hour,
)
    requires { HourFits s k name.now buffer.old × ReadingsWithin h.readings }
    ensures { buffer.new ≡ hour_lines name.now s k (digits_of date_width date) h (hourly order) buffer.old }
{
    records::write_hour(buffer, name, s, RecordType::So2Concentration, k, date, h);
    records::write_hour(buffer, name, s, RecordType::NoxConcentration, k, date, h);
    records::write_hour(buffer, name, s, RecordType::Co2Concentration, k, date, h);
    records::write_hour(buffer, name, s, RecordType::VolumetricFlow, k, date, h);
    records::write_hour(buffer, name, s, RecordType::Operation, k, date, h);
    records::write_hour(buffer, name, s, RecordType::So2Mass, k, date, h);
    records::write_hour(buffer, name, s, RecordType::NoxRate, k, date, h);
    records::write_hour(buffer, name, s, RecordType::Co2Mass, k, date, h);
}

// The lines of all hours; returns the totals that they form.
fn write_hours(
    buffer: &mut [u8],
    name: &[u8; layout::STACK_WIDTH],
    sheet: &[u32],
    year: u64,
    quarter: u64,
) -> Quarter
    requires { Fits year quarter name.now sheet.now buffer.old }
    ensures { (result ≡ quarter_totals (recorded_hours (report_hours (sheet_hours sheet.now))))
        × (buffer.new
        ≡ hours_lines year quarter name.now (shape_of sheet.now) 0 (report_hours (sheet_hours sheet.now))
        buffer.old) }
{
    let s = sheet::shape_of(sheet);
    let period = Period::new(year, quarter);
    let mut totals = Totals::none();
    for k in 0..s.hours {
        let h = sheet::hour_at(sheet, k);
        let date = stamp::stamp_number(period, h.hour);
        let recorded = recorded_hour(h);
        totals = totals.with_hour(recorded.figures, recorded.time);
        write_hour_lines(buffer, name, s, k, date, recorded);
    }
    totals.quarter()
}

pub fn write_report(
    buffer: &mut [u8],
    name: &[u8; layout::STACK_WIDTH],
    sheet: &[u32],
    year: u64,
    quarter: u64,
)
    requires { Fits year quarter name.now sheet.now buffer.old }
    ensures { buffer.new
        ≡ put 1 (report year quarter name.now (report_hours (sheet_hours sheet.now))) buffer.old }
{
    records::write_facility(buffer, name, year, quarter);
    let totals = write_hours(buffer, name, sheet, year, quarter);
    let at = layout::offset_of(sheet::shape_of(sheet), RecordType::QuarterTotals, 0);
    records::write_totals(buffer, name, at, totals);
}
