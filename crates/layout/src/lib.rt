// The records of a quarterly report: one row a type, and their order, for reader and writer alike.
#![tactic(auto)]

pub mod values;

ghost use Rattle.std.specs.Prelude.{◌≡◌, ◌+◌, ◌*◌, ◌≤◌, ◌<◌, length};
ghost use Rattle.calendar.specs.Calendar.{most_hours};
ghost use Rattle.layout.specs.Lead.{lead_by, lead_of};
ghost use Rattle.layout.specs.Layout.{code_of, type_digits, length_of, date_column, row_of, count_of, order, type_at};
ghost use Rattle.layout.specs.Pictures.{whole_picture};
ghost use Rattle.layout.specs.Layout.{front_of, line_of, offset_of, report_length, Held, value_count, value_at};

use crate::values::Value;

// Every line has its type and its stack name.
pub const TYPE_START: usize = 1;

pub const TYPE_WIDTH: usize = 3;

pub const STACK_START: usize = 4;

pub const STACK_WIDTH: usize = 6;

// Date and hour, YYMMDDHH.
pub const DATE_WIDTH: usize = 8;

// No line has more columns.
pub const PICTURE_WIDTH: usize = 64;

// No record has more values.
pub const MOST_VALUES: usize = 5;

// Line 100 and a 200 line: their length, and with byte 10; where the date of a 200 line starts.
pub const FACILITY_LENGTH: usize = 14;

pub const FACILITY_BYTES: usize = FACILITY_LENGTH + 1;

pub const SO2_LENGTH: usize = 40;

pub const SO2_BYTES: usize = SO2_LENGTH + 1;

pub const SO2_DATE: usize = 16;

// That date and hour, in bytes of the line.
pub const HOUR_FROM: usize = SO2_DATE - 1;

pub const HOUR_TO: usize = HOUR_FROM + DATE_WIDTH;

// A 300 line: likewise.
pub const OPERATION_LENGTH: usize = 42;

pub const OPERATION_BYTES: usize = OPERATION_LENGTH + 1;

pub const OPERATION_DATE: usize = 10;

// A 310 line: its length, the word of a gas hour and where it starts, and that place in bytes of the line.
pub const SO2_MASS_LENGTH: usize = 34;

pub const GAS_START: usize = 32;

pub const GAS_WIDTH: usize = 3;

pub const GAS: [u8; GAS_WIDTH] = [b'G', b'A', b'S'];

pub const GAS_FROM: usize = GAS_START - 1;

pub const GAS_TO: usize = GAS_FROM + GAS_WIDTH;

#[derive(Clone, Copy)]
pub enum RecordType {
    // 100
    Facility,
    // 200
    So2Concentration,
    // 201
    NoxConcentration,
    // 202
    Co2Concentration,
    // 220
    VolumetricFlow,
    // 300
    Operation,
    // 301
    QuarterTotals,
    // 310
    So2Mass,
    // 320
    NoxRate,
    // 330
    Co2Mass,
}

// How many lines a report has: its operating hours, and its 300 lines.
#[derive(Clone, Copy)]
pub struct Shape {
    pub hours: usize,
    pub operations: usize,
}

// How many lines of a type there are: one, one for each operating hour, or one for each hour that is listed.
#[derive(Clone, Copy)]
pub enum Run {
    Once,
    Hourly,
    Listed,
}

// The lines and the bytes in front of a type.
#[derive(Clone, Copy)]
pub struct Front {
    pub lines: usize,
    pub bytes: usize,
}

// What stands in front of a type: lines of their own, those of one operating hour, and that of one hour listed.
#[derive(Clone, Copy)]
struct Lead {
    once: Front,
    hourly: Front,
    listed: Front,
}

// A type's code, which is written, and its digits, which are compared; the length of its line without byte 10, where date and hour start (0 where it has
// none), its run of lines, how many values it has, whether its lines may have GAS. The date stays a number: the definition of `date_column` has 0 for none.
#[derive(Clone, Copy)]
pub struct Row {
    pub code: u64,
    pub digits: [u8; TYPE_WIDTH],
    pub length: usize,
    pub date: usize,
    pub run: Run,
    pub values: usize,
    pub gas: bool,
}

pub fn row_of(t: RecordType) -> Row
    ensures { result ≡ row_of t }
{
    match t {
        RecordType::Facility => Row {
            code: 100,
            digits: [b'1', b'0', b'0'],
            length: FACILITY_LENGTH,
            date: 0,
            run: Run::Once,
            values: 0,
            gas: false,
        },
        RecordType::So2Concentration => Row {
            code: 200,
            digits: [b'2', b'0', b'0'],
            length: SO2_LENGTH,
            date: SO2_DATE,
            run: Run::Hourly,
            values: 1,
            gas: false,
        },
        RecordType::NoxConcentration => Row {
            code: 201,
            digits: [b'2', b'0', b'1'],
            length: 34,
            date: 16,
            run: Run::Hourly,
            values: 1,
            gas: false,
        },
        RecordType::Co2Concentration => Row {
            code: 202,
            digits: [b'2', b'0', b'2'],
            length: 34,
            date: 16,
            run: Run::Hourly,
            values: 1,
            gas: false,
        },
        RecordType::VolumetricFlow => Row {
            code: 220,
            digits: [b'2', b'2', b'0'],
            length: 48,
            date: 16,
            run: Run::Hourly,
            values: 1,
            gas: false,
        },
        RecordType::Operation => Row {
            code: 300,
            digits: [b'3', b'0', b'0'],
            length: OPERATION_LENGTH,
            date: OPERATION_DATE,
            run: Run::Listed,
            values: 2,
            gas: false,
        },
        RecordType::QuarterTotals => Row {
            code: 301,
            digits: [b'3', b'0', b'1'],
            length: 59,
            date: 0,
            run: Run::Once,
            values: 5,
            gas: false,
        },
        RecordType::So2Mass => Row {
            code: 310,
            digits: [b'3', b'1', b'0'],
            length: SO2_MASS_LENGTH,
            date: 10,
            run: Run::Hourly,
            values: 1,
            gas: true,
        },
        RecordType::NoxRate => Row {
            code: 320,
            digits: [b'3', b'2', b'0'],
            length: 54,
            date: 13,
            run: Run::Hourly,
            values: 2,
            gas: false,
        },
        RecordType::Co2Mass => Row {
            code: 330,
            digits: [b'3', b'3', b'0'],
            length: 24,
            date: 10,
            run: Run::Hourly,
            values: 1,
            gas: false,
        },
    }
}

// How many lines of a type a report of a shape has.
pub fn count_of(s: Shape, t: RecordType) -> usize
    ensures { result ≡ count_of s t }
{
    let run = row_of(t).run;
    match run {
        Run::Once => 1,
        Run::Hourly => s.hours,
        Run::Listed => s.operations,
    }
}

// How many types there are, and the places of the 200 and of the 300 lines among them.
pub const TYPES: usize = 10;

pub const SO2_PLACE: usize = 1;

pub const OPERATION_PLACE: usize = 5;

const ORDER: [RecordType; TYPES] = [
    RecordType::Facility,
    RecordType::So2Concentration,
    RecordType::NoxConcentration,
    RecordType::Co2Concentration,
    RecordType::VolumetricFlow,
    RecordType::Operation,
    RecordType::QuarterTotals,
    RecordType::So2Mass,
    RecordType::NoxRate,
    RecordType::Co2Mass,
];

// The types in the order of a report.
pub fn type_at(place: usize) -> RecordType
    requires { place < length order }
    ensures { result ≡ type_at place }
{
    ORDER[place]
}

fn lead_by(
    lines: usize,
    bytes: usize,
    more: usize,
    longer: usize,
    listed: usize,
    listing: usize,
) -> Lead
    ensures { result ≡ lead_by lines bytes more longer listed listing }
{
    Lead {
        once: Front { lines, bytes },
        hourly: Front {
            lines: more,
            bytes: longer,
        },
        listed: Front {
            lines: listed,
            bytes: listing,
        },
    }
}

// What stands in front of a type: lines of their own and their bytes, those of one operating hour, and that of one hour listed.
fn lead_of(t: RecordType) -> Lead
    ensures { result ≡ lead_of t }
{
    match t {
        RecordType::Facility => lead_by(0, 0, 0, 0, 0, 0),
        RecordType::So2Concentration => lead_by(1, 15, 0, 0, 0, 0),
        RecordType::NoxConcentration => lead_by(1, 15, 1, 41, 0, 0),
        RecordType::Co2Concentration => lead_by(1, 15, 2, 76, 0, 0),
        RecordType::VolumetricFlow => lead_by(1, 15, 3, 111, 0, 0),
        RecordType::Operation => lead_by(1, 15, 4, 160, 0, 0),
        RecordType::QuarterTotals => lead_by(1, 15, 4, 160, 1, 43),
        RecordType::So2Mass => lead_by(2, 75, 4, 160, 1, 43),
        RecordType::NoxRate => lead_by(2, 75, 5, 195, 1, 43),
        RecordType::Co2Mass => lead_by(2, 75, 6, 250, 1, 43),
    }
}

fn sized(s: Shape, once: usize, hourly: usize, listed: usize) -> usize
    requires { Held s × (once ≤ 1000) × (hourly ≤ 1000) × (listed ≤ 1000) }
    ensures { (result ≡ once + hourly * s.hours + listed * s.operations) × (result ≤ 10000000) }
{
    once + hourly * s.hours + listed * s.operations
}

// The lines and the bytes in front of a type.
pub fn front_of(s: Shape, t: RecordType) -> Front
    requires { Held s }
    ensures { (result ≡ front_of s t) × (result.lines ≤ 10000000) × (result.bytes ≤ 10000000) }
{
    let lead = lead_of(t);
    Front {
        lines: sized(s, lead.once.lines, lead.hourly.lines, lead.listed.lines),
        bytes: sized(s, lead.once.bytes, lead.hourly.bytes, lead.listed.bytes),
    }
}

// The line of a type's record of rank k, from 0; the first line is 1.
pub fn line_of(s: Shape, t: RecordType, k: usize) -> usize
    requires { Held s × (k ≤ most_hours) }
    ensures { result ≡ line_of s t k }
{
    1 + front_of(s, t).lines + k
}

// Where that line starts, in bytes.
pub fn offset_of(s: Shape, t: RecordType, k: usize) -> usize
    requires { Held s × (k ≤ most_hours) }
    ensures { result ≡ offset_of s t k }
{
    front_of(s, t).bytes + (row_of(t).length + 1) * k
}

// A report's length, in bytes: the last type ends it.
pub fn report_length(s: Shape) -> usize
    requires { Held s }
    ensures { (result ≡ report_length s) × (result ≤ 10000000) }
{
    offset_of(s, RecordType::Co2Mass, s.hours)
}

// The totals of record 301.
fn total_at(i: usize) -> Value
    requires { i < value_count RecordType.QuarterTotals }
    ensures { result ≡ value_at RecordType.QuarterTotals i }
{
    match i {
        0 => values::SO2_TONS,
        1 => values::CO2_TONS,
        2 => values::HEAT_TOTAL,
        3 => values::NOX_MEAN,
        _ => values::NOX_TONS,
    }
}

// The i-th value of a record from the left, from 0.
pub fn value_at(t: RecordType, i: usize) -> Value
    requires { i < value_count t }
    ensures { result ≡ value_at t i }
{
    match t {
        RecordType::Facility => values::NO_VALUE,
        RecordType::So2Concentration => values::SO2_PPM,
        RecordType::NoxConcentration => values::NOX_PPM,
        RecordType::Co2Concentration => values::CO2_PERCENT,
        RecordType::VolumetricFlow => values::FLOW_SCFH,
        RecordType::Operation => match i {
            0 => values::TIME_HOURS,
            _ => values::HEAT_RATE,
        },
        RecordType::QuarterTotals => total_at(i),
        RecordType::So2Mass => values::SO2_RATE,
        RecordType::NoxRate => match i {
            0 => values::F_FACTOR,
            _ => values::NOX_RATE,
        },
        RecordType::Co2Mass => values::CO2_RATE,
    }
}

// One column of the row each.

// The number of a type.
pub fn type_code(t: RecordType) -> u64
    ensures { result ≡ code_of t }
{
    row_of(t).code
}

// Its three bytes.
pub fn type_digits(t: RecordType) -> [u8; TYPE_WIDTH]
    ensures { result ≡ type_digits t }
{
    row_of(t).digits
}

// The length of a line without its byte 10.
pub fn line_length(t: RecordType) -> usize
    ensures { (result ≡ length_of t) × (result ≤ 99) }
{
    row_of(t).length
}

// Where date and hour start; 0 where a record has none.
pub fn date_column(t: RecordType) -> usize
    ensures { result ≡ date_column t }
{
    row_of(t).date
}

// How many values a record has.
pub fn value_count(t: RecordType) -> usize
    ensures { result ≡ value_count t }
{
    row_of(t).values
}

// The picture of a type's lines, longer than they are: `9` is a digit, a blank may be one, `~` is any printable byte.
pub fn picture_of(t: RecordType) -> [u8; PICTURE_WIDTH]
    ensures { result ≡ whole_picture t }
{
    match t {
        RecordType::Facility =>
            *b"100~~~~~~~~~~~~~~~~~~~~~~~~~~~~~~~~~~~~~~~~~~~~~~~~~~~~~~~~~~~~~",
        RecordType::So2Concentration =>
            *b"200~~~~~~~~~~~~~~~~~~~~~~~~~~~~~~~   9.9~~~~~~~~~~~~~~~~~~~~~~~~",
        RecordType::NoxConcentration =>
            *b"201~~~~~~~~~~~~~~~~~~~~~~~~~   9.9~~~~~~~~~~~~~~~~~~~~~~~~~~~~~~",
        RecordType::Co2Concentration =>
            *b"202~~~~~~~~~~~~~~~~~~~~~~~~~   9.9~~~~~~~~~~~~~~~~~~~~~~~~~~~~~~",
        RecordType::VolumetricFlow =>
            *b"220~~~~~~~~~~~~~~~~~~~~~~~~~~~~~~~~~~~         9~~~~~~~~~~~~~~~~",
        RecordType::Operation =>
            *b"300~~~~~~~~~~~~~~9.99~~~~~~~~~~~~~~    9.9~~~~~~~~~~~~~~~~~~~~~~",
        RecordType::QuarterTotals =>
            *b"301~~~~~~        9.9        9.9        9.9 9.999        9.9~~~~~",
        RecordType::So2Mass => *b"310~~~~~~~~~~~~~~~~~~~~~    9.9~~~~~~~~~~~~~~~~~~~~~~~~~~~~~~~~~",
        RecordType::NoxRate => *b"320~~~~~~~~~~~~~~~~~~~~~~       9.9 9.999~~~~~~~~~~~~~~~~~~~~~~~",
        RecordType::Co2Mass => *b"330~~~~~~~~~~~~~~    9.9~~~~~~~~~~~~~~~~~~~~~~~~~~~~~~~~~~~~~~~~",
    }
}
