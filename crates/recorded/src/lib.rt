// What the records of a file whose lines are right say, found where the layout has them.
#![tactic(auto)]

ghost use Rattle.std.specs.Prelude.{◌≡◌, ◌<◌, length};
ghost use Rattle.columns.specs.Number.{number_of};
ghost use Rattle.layout.specs.Layout.{length_of, value_count, value_at, count_of};
ghost use Rattle.lines.specs.LineFaults.{field_in};
ghost use Rattle.lines.specs.FaultLaws.{ValuesFormed};
ghost use Rattle.reading.specs.Recorded.{records_of, hour_at, totals_in};
ghost use Rattle.reading.specs.Places.{line_at, Standing, operating_from, operating_place, Stands};
ghost use Rattle.recorded.specs.ListedHours.{listed_hour};

use formulas::hour::{Figures, Hour, Readings};
use layout::{RecordType, Run, Shape, values};
use totals::Quarter;

// A line of a type, none of whose values is malformed.
#[derive(Clone, Copy)]
struct Line<'a> {
    record_type: RecordType,
    text: &'a [u8],
    ghost whole: { length text.now ≡ length_of record_type },
    ghost formed: { ValuesFormed record_type text.now },
}

impl Line<'_> {
    // The i-th value, from 0. Inlined, as the line is: its columns are then constants.
    #[inline(always)]
    fn value(self, i: usize) -> u64
        requires { i < value_count self.record_type }
        ensures { result ≡ number_of (field_in (value_at self.entry.record_type i) self.entry.text.now) }
    {
        let v = layout::value_at(self.record_type, i);
        columns::worth(self.text, v.start, v.width, v.decimals)
    }
}

// An operating hour among the 300 lines: the place of its line, from 0, and its time.
#[derive(Clone, Copy)]
pub struct ListedHour {
    pub place: usize,
    pub time: u64,
}

// The records of a file of a shape whose lines are right.
#[derive(Clone, Copy)]
pub struct Records<'a> {
    pub file: &'a [u8],
    pub shape: Shape,
    pub ghost standing: { Standing file.now shape },
}

impl<'a> Records<'a> {
    // The line at a place of a type's run, from 0.
    #[inline(always)]
    fn line_at(self, t: RecordType, p: usize) -> Line<'a>
        requires { p < count_of self.shape t }
        ensures { (result.record_type ≡ t) × (result.text.now ≡ (line_at self.entry.file.now self.entry.shape t p).text) }
    {
        let from = layout::offset_of(self.shape, t, p);
        Line {
            record_type: t,
            text: &self.file[from..from + layout::line_length(t)],
        }
    }

    // The first operating hour from place p on, where one follows.
    pub fn operating_from(self, p: usize) -> ListedHour
        requires { 0 < length (operating_from self.file.now self.shape p) }
        ensures { result ≡ listed_hour self.entry.file.now self.entry.shape (operating_place self.entry.file.now self.entry.shape p) }
    {
        for place in p..self.shape.operations {
            let time = self.line_at(RecordType::Operation, place).value(0);
            if time != 0 {
                return ListedHour { place, time };
            }
        }
        unreachable!()
    }

    // The place of the 300 line of operating hour k, from 0.
    fn operating_place(self, k: usize) -> usize
        requires { k < self.shape.hours }
        ensures { Stands self.entry.file.now self.entry.shape RecordType.Operation k result }
    {
        let mut from = 0;
        for _ in 0..k {
            from = self.operating_from(from).place + 1;
        }
        self.operating_from(from).place
    }

    // The place of the record of rank k, from 0, in its type's run: of the 300 lines some are no records, every other line is one.
    pub fn place_of(self, t: RecordType, k: usize) -> usize
        requires { k < length (records_of self.file.now t) }
        ensures { Stands self.entry.file.now self.entry.shape t k result }
    {
        match layout::row_of(t).run {
            Run::Once | Run::Hourly => k,
            Run::Listed => self.operating_place(k),
        }
    }

    // Operating hour k, from 0; `at` is its 300 line.
    pub fn hour(self, k: usize, at: ListedHour) -> Hour
        requires { (k < self.shape.hours) × Stands self.file.now self.shape RecordType.Operation k at.place
            × (at ≡ listed_hour self.file.now self.shape at.place) }
        ensures { result ≡ hour_at self.entry.file.now k }
    {
        let mass = self.line_at(RecordType::So2Mass, k);
        let rate = self.line_at(RecordType::NoxRate, k);
        Hour {
            time: at.time,
            gas: lines::gas::has_gas(mass.text),
            readings: Readings {
                so2: self.line_at(RecordType::So2Concentration, k).value(0),
                nox: self.line_at(RecordType::NoxConcentration, k).value(0),
                co2: self.line_at(RecordType::Co2Concentration, k).value(0),
                flow: values::thousands_of(self.line_at(RecordType::VolumetricFlow, k).value(0)),
                fc: rate.value(0),
            },
            figures: Figures {
                heat: self.line_at(RecordType::Operation, at.place).value(1),
                so2: mass.value(0),
                nox: rate.value(1),
                co2: self.line_at(RecordType::Co2Mass, k).value(0),
            },
        }
    }

    // The totals on line 301.
    pub fn totals(self) -> Quarter
        ensures { result ≡ totals_in self.entry.file.now }
    {
        let line = self.line_at(RecordType::QuarterTotals, 0);
        Quarter {
            hours: self.shape.hours as u64,
            so2: line.value(0),
            co2: line.value(1),
            heat: line.value(2),
            nox: line.value(3),
            nox_tons: line.value(4),
        }
    }
}
