// An hour as a recorder hands it over, made into words of the sheet: each reading rounded half up from the exact value of its float.
#![tactic(auto)]

ghost use Rattle.std.specs.Prelude.{◌≡◌, ◌*◌, ◌≤◌, ◌<◌, ◌^◌};
ghost use Rattle.refusals.specs.Refusals.{told, recorder_number};
ghost use Rattle.recorder.specs.Recording.{substituted_in, recorded_of, recorder_numbers};
ghost use Rattle.recorder.specs.Promise.{RecorderPromise};
ghost use Rattle.recorder.specs.Parts.{PartsOf, float_scale, parts_count, UnitRoom, channel_row, FloatUnits, ReadingUnits};

use layout::values;
use layout::values::Value;
use refusals::RecorderRefusal;

// One reading of an hour: its float, measured or substituted, or none.
#[derive(Clone, Copy)]
pub enum RecorderReading {
    Measured(f64),
    Substituted(f64),
    Absent,
}

// SO2 and NOx in ppm, CO2 in percent, flow in scfh.
#[derive(Clone, Copy)]
pub struct RecorderHour {
    pub so2: RecorderReading,
    pub nox: RecorderReading,
    pub co2: RecorderReading,
    pub flow: RecorderReading,
}

// The words of an hour's readings, and how many of the readings are substituted.
#[derive(Clone, Copy)]
pub struct HourWords {
    pub so2: u32,
    pub nox: u32,
    pub co2: u32,
    pub flow: u32,
    pub substituted: u32,
}

// The readings of an hour, in the order in which they are tried.
#[derive(Clone, Copy)]
pub enum Channel {
    So2,
    Nox,
    Co2,
    Flow,
}

// In a float's bits: the weight of the sign, the weight of the exponent field, which is also that of the leading one that the bits leave
// out, and the field of infinities and NaNs.
const SIGN: u64 = 9223372036854775808;

const HIDDEN: u64 = 4503599627370496;

const ALL_ONES: u64 = 2047;

// Floats are counted in 1 / 2^1074, the smallest.
const SCALE: u64 = 1074;

// A float that can be a reading: its value is significand × 2^exponent / 2^1074.
#[derive(Clone, Copy)]
struct Parts {
    significand: u64,
    exponent: u64,
}

// A unit in which readings are recorded, num / den. A significand with `gone` or more binary places, 1074 − exponent, records as 0.
#[derive(Clone, Copy)]
struct RecordingUnit {
    num: u64,
    den: u64,
    gone: u64,
}

// Tenths of ppm or percent, thousands of scfh.
const TENTH: RecordingUnit = RecordingUnit {
    num: 1,
    den: 10,
    gone: 58,
};

const THOUSAND: RecordingUnit = RecordingUnit {
    num: 1000,
    den: 1,
    gone: 53,
};

// A channel's columns in the report, and its unit.
#[derive(Clone, Copy)]
struct ChannelRow {
    column: Value,
    unit: RecordingUnit,
}

// A float taken apart by its bits, unless it cannot be a reading. Those of a NaN say nothing, so it is told before they are asked for.
fn parts_of(x: f64) -> Option<Parts>
    ensures { PartsOf x result }
{
    if x != x {
        return None;
    }
    let bits = f64::to_bits(x);
    let digits = bits % HIDDEN;
    match bits % SIGN / HIDDEN {
        // Minus zero is zero.
        _ if bits > SIGN => None,
        ALL_ONES => None,
        0 => Some(Parts {
            significand: digits,
            exponent: 0,
        }),
        field => Some(Parts {
            significand: HIDDEN + digits,
            exponent: field - 1,
        }),
    }
}

fn channel_row(c: Channel) -> ChannelRow
    ensures { result ≡ channel_row c }
{
    match c {
        Channel::So2 => ChannelRow {
            column: values::SO2_PPM,
            unit: TENTH,
        },
        Channel::Nox => ChannelRow {
            column: values::NOX_PPM,
            unit: TENTH,
        },
        Channel::Co2 => ChannelRow {
            column: values::CO2_PERCENT,
            unit: TENTH,
        },
        Channel::Flow => ChannelRow {
            column: values::FLOW_SCFH,
            unit: THOUSAND,
        },
    }
}

// How many units a float below 2^52 comes to, rounded half up.
fn count_at(p: Parts, u: RecordingUnit) -> u64
    requires { (p.significand < 2 ^ 53) × (p.exponent < float_scale) × UnitRoom u }
    ensures { (result ≡ parts_count p u) × (result ≤ u.den * 2 ^ 53) }
{
    let places = SCALE - p.exponent;
    if places >= u.gone {
        return 0;
    }
    exact::half_up(u.den * p.significand, u.num << places)
}

// The units of a float. One from 2^52 on lies beyond every range, and nothing is formed of it.
fn float_units(c: Channel, x: f64) -> Result<u64, RecorderRefusal>
    ensures { FloatUnits c x result }
{
    let Some(parts) = parts_of(x) else {
        return Err(RecorderRefusal::Unusable);
    };
    if parts.exponent >= SCALE {
        return Err(RecorderRefusal::Range);
    }
    let row = channel_row(c);
    let units = count_at(parts, row.unit);
    if !values::in_range(row.column, row.column.step * units) {
        return Err(RecorderRefusal::Range);
    }
    Ok(units)
}

fn reading_units(c: Channel, reading: RecorderReading) -> Result<u64, RecorderRefusal>
    ensures { ReadingUnits c reading result }
{
    match reading {
        RecorderReading::Measured(x) | RecorderReading::Substituted(x) => float_units(c, x),
        RecorderReading::Absent => Err(RecorderRefusal::Absent),
    }
}

fn substituted(reading: RecorderReading) -> u32
    ensures { (result ≡ substituted_in reading) × (result ≤ 1) }
{
    match reading {
        RecorderReading::Measured(_) => 0,
        RecorderReading::Substituted(_) => 1,
        RecorderReading::Absent => 0,
    }
}

// The four words of an hour, or the first refusal: SO2, NOx, CO2 and flow in turn.
pub fn hour_words(h: RecorderHour) -> Result<HourWords, RecorderRefusal>
    ensures { (told recorder_number result ≡ recorded_of h)
        × RecorderPromise h (recorder_numbers (told recorder_number result)) }
{
    let so2 = reading_units(Channel::So2, h.so2)?;
    let nox = reading_units(Channel::Nox, h.nox)?;
    let co2 = reading_units(Channel::Co2, h.co2)?;
    let flow = reading_units(Channel::Flow, h.flow)?;
    Ok(HourWords {
        so2: sheet::word_of(sheet::SO2_KIND, so2),
        nox: sheet::word_of(sheet::NOX_KIND, nox),
        co2: sheet::word_of(sheet::CO2_KIND, co2),
        flow: sheet::word_of(sheet::FLOW_KIND, flow),
        substituted: substituted(h.so2)
            + substituted(h.nox)
            + substituted(h.co2)
            + substituted(h.flow),
    })
}
