// The refusals of the writer, 31 to 34, decided before the first byte is written.
ghost use Rattle.std.specs.Prelude.{◌≡◌};
ghost use Rattle.refusals.specs.Refusals.{fault_in, write_number};
ghost use Rattle.sheet.specs.Sheet.{sheet_hour_count};
ghost use Rattle.writer.specs.Refusals.{figures_hold, refusal_of};
ghost use Rattle.writer.specs.OnePass.{hour_refusal, first_tried, refusal_from};

use calendar::Period;
use formulas::hour::Figures;
use layout::values;
use refusals::WriteRefusal;
use sheet::SheetHour;

// Whether the figures fit their columns.
#[tactic(auto, unfolding(crate::specs::Refusals::figures_hold))]
fn figures_hold(f: Figures) -> bool
    ensures { result ≡ figures_hold f }
{
    values::within(values::HEAT_RATE, f.heat)
        && values::within(values::SO2_RATE, f.so2)
        && values::within(values::NOX_RATE, f.nox)
        && values::within(values::CO2_RATE, f.co2)
}

// The values of an hour, and its figures.
#[tactic(auto, unfolding(crate::specs::OnePass::hour_refusal))]
fn try_hour(h: SheetHour) -> Result<(), WriteRefusal>
    ensures { fault_in write_number result ≡ hour_refusal h }
{
    if !sheet::readings_hold(h) {
        return Err(WriteRefusal::Range);
    }
    if !figures_hold(formulas::rounded_figures(sheet::recorded_readings(h))) {
        return Err(WriteRefusal::Figure);
    }
    Ok(())
}

// Of two refusals the one with the lesser number, which is tried first.
fn first_tried(a: Result<(), WriteRefusal>, b: Result<(), WriteRefusal>) -> Result<(), WriteRefusal>
    ensures { fault_in write_number result ≡ first_tried (fault_in write_number a) (fault_in write_number b) }
{
    match (a, b) {
        (Ok(()), _) => b,
        (_, Ok(())) => a,
        (Err(x), Err(y)) => Err(if y.number() < x.number() { y } else { x }),
    }
}

// 31 to 33, in one pass over the hours.
fn try_hours(sheet: &[u32], below: u64) -> Result<(), WriteRefusal>
    ensures { fault_in write_number result ≡ refusal_from below sheet.now 0 (sheet_hour_count sheet.now) 0 0 }
{
    let mut from = 0;
    let mut found = Ok(());
    for k in 0..sheet::shape_of(sheet).hours {
        if !sheet::kinds_hold(sheet, k) {
            return Err(WriteRefusal::Sheet);
        }
        let h = sheet::hour_at(sheet, k);
        if !sheet::hour_holds(below, from, h) {
            return Err(WriteRefusal::Sheet);
        }
        found = first_tried(found, try_hour(h));
        from = h.hour + 1;
    }
    found
}

pub fn try_sheet(
    name: &[u8],
    sheet: &[u32],
    year: u64,
    quarter: u64,
    room: usize,
) -> Result<(), WriteRefusal>
    ensures { fault_in write_number result ≡ refusal_of year quarter name.now sheet.now room }
{
    if !sheet::heading_holds(name, year, quarter) || sheet.len() % sheet::HOUR_WORDS != 0 {
        return Err(WriteRefusal::Sheet);
    }
    try_hours(sheet, Period::new(year, quarter).hours())?;
    if room < layout::report_length(sheet::shape_of(sheet)) {
        return Err(WriteRefusal::Buffer);
    }
    Ok(())
}
