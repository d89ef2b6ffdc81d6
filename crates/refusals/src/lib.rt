// The refusals of each call: what each is for, and its number in the paper's table.
#![tactic(auto)]

ghost use Rattle.std.specs.Prelude.{◌≡◌};
ghost use Rattle.refusals.specs.Refusals.{fault_number, write_number, join_number, recorder_number, convert_number, refusal_at, on_paper, told};

/// What the check refuses a file for.
#[derive(Clone, Copy, Debug, PartialEq, Eq)]
pub enum Fault {
    /// The file is empty, or its last byte is not 10.
    Unfinished,
    /// A line of another type than is due, or one behind the last.
    Type,
    /// A line's length.
    Length,
    /// A byte outside 32 to 126.
    Byte,
    /// The stack name: blank on line 100, unlike that of line 100 on another.
    Stack,
    /// Year, quarter, date or hour: not digits, or outside its range.
    Period,
    /// Date and hour unlike those of the 200 line of the same rank.
    Date,
    /// A value that is not in its format.
    Format,
    /// A value outside its range.
    Range,
    /// Lines are missing.
    Missing,
    /// Nothing unrounded lies behind a heat input rate.
    HeatRate,
    /// Nothing unrounded lies behind an SO2 mass rate.
    So2Rate,
    /// Nothing unrounded lies behind a NOx rate.
    NoxRate,
    /// Nothing unrounded lies behind a CO2 mass rate.
    Co2Rate,
    /// SO2 tons differ from those formed.
    So2Tons,
    /// CO2 tons differ from those formed.
    Co2Tons,
    /// The heat input differs from the one formed.
    HeatInput,
    /// The mean NOx rate differs from the one formed.
    NoxMean,
    /// A flow that is not a whole thousand.
    Thousands,
    /// A heat in an idle hour.
    IdleHeat,
    /// NOx tons differ from those formed.
    NoxTons,
    /// GAS beside an SO2 reading, or neither.
    Gas,
}

/// A refusal of a file: why, and the line, counted from 1, or 0 for the whole file.
#[derive(Clone, Copy, Debug, PartialEq, Eq)]
pub struct Refusal {
    pub fault: Fault,
    pub line: usize,
}

/// A refusal of a file as the paper has it: a number and a line.
#[derive(Clone, Copy, Debug, PartialEq, Eq)]
pub struct PaperRefusal {
    pub number: u64,
    pub line: usize,
}

/// What the writer refuses a sheet for.
#[derive(Clone, Copy, Debug, PartialEq, Eq)]
pub enum WriteRefusal {
    /// Year, quarter, name, word count, a kind, or hours that do not rise.
    Sheet,
    /// A value outside its range.
    Range,
    /// A figure too large for its columns.
    Figure,
    /// A buffer shorter than the report.
    Buffer,
}

/// What refuses a quarter that is to be added to a year's record.
#[derive(Clone, Copy, Debug, PartialEq, Eq)]
pub enum JoinRefusal {
    /// The quarter does not follow the record.
    Order,
    /// A sum is more than it may be.
    Sum,
}

/// What refuses an hour of a recorder.
#[derive(Clone, Copy, Debug, PartialEq, Eq)]
pub enum RecorderRefusal {
    /// A reading is absent.
    Absent,
    /// A float that is no reading: negative, infinite or no number.
    Unusable,
    /// A reading outside its range.
    Range,
}

/// What refuses a kept sheet that is to be converted.
#[derive(Clone, Copy, Debug, PartialEq, Eq)]
pub enum ConvertRefusal {
    /// The count of the words, or a kind.
    Sheet,
    /// A flow that is not a whole thousand.
    Thousands,
}

/// What is tried of a line, refused there.
pub fn at_line<T: Drop>(tried: Result<T, Fault>, line: usize) -> Result<T, Refusal>
    ensures { result ≡ told (refusal_at line) tried }
{
    match tried {
        Ok(value) => Ok(value),
        Err(fault) => Err(fault.at(line)),
    }
}

impl Fault {
    /// The refusal of a line for it.
    pub fn at(self, line: usize) -> Refusal
        ensures { result ≡ refusal_at line self }
    {
        Refusal { fault: self, line }
    }

    pub fn number(self) -> u64
        ensures { result ≡ fault_number self }
    {
        match self {
            Fault::Unfinished => 1,
            Fault::Type => 2,
            Fault::Length => 3,
            Fault::Byte => 4,
            Fault::Stack => 5,
            Fault::Period => 6,
            Fault::Date => 7,
            Fault::Format => 8,
            Fault::Range => 9,
            Fault::Missing => 10,
            Fault::HeatRate => 11,
            Fault::So2Rate => 12,
            Fault::NoxRate => 13,
            Fault::Co2Rate => 14,
            Fault::So2Tons => 21,
            Fault::Co2Tons => 22,
            Fault::HeatInput => 23,
            Fault::NoxMean => 24,
            Fault::Thousands => 43,
            Fault::IdleHeat => 47,
            Fault::NoxTons => 48,
            Fault::Gas => 49,
        }
    }
}

impl Refusal {
    /// Its number and its line.
    pub fn on_paper(self) -> PaperRefusal
        ensures { result ≡ on_paper self }
    {
        PaperRefusal {
            number: self.fault.number(),
            line: self.line,
        }
    }
}

impl WriteRefusal {
    pub fn number(self) -> u64
        ensures { result ≡ write_number self }
    {
        match self {
            WriteRefusal::Sheet => 31,
            WriteRefusal::Range => 32,
            WriteRefusal::Figure => 33,
            WriteRefusal::Buffer => 34,
        }
    }
}

impl JoinRefusal {
    pub fn number(self) -> u64
        ensures { result ≡ join_number self }
    {
        match self {
            JoinRefusal::Order => 41,
            JoinRefusal::Sum => 42,
        }
    }
}

impl RecorderRefusal {
    pub fn number(self) -> u64
        ensures { result ≡ recorder_number self }
    {
        match self {
            RecorderRefusal::Absent => 44,
            RecorderRefusal::Unusable => 45,
            RecorderRefusal::Range => 46,
        }
    }
}

impl ConvertRefusal {
    pub fn number(self) -> u64
        ensures { result ≡ convert_number self }
    {
        match self {
            ConvertRefusal::Sheet => 31,
            ConvertRefusal::Thousands => 50,
        }
    }
}
