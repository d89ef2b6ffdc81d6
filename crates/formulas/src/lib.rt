// The four equations in 64-bit arithmetic: the test of a figure, and the rounded value of recorded readings.
#![tactic(auto)]

pub mod hour;

ghost use Rattle.std.specs.Prelude.{◌≡◌, ◌≤◌};
ghost use Rattle.formulas.specs.Hour.{ReadingsWithin, FiguresWithin, HourWithin};
ghost use Rattle.formulas.specs.Formulas.{gas_meets, Judges, rounded_value, rounded_figures};
ghost use Rattle.formulas.specs.Reduced.{formula_meets, ProductRoom, QuotientRoom, Serves};

use crate::hour::{Figures, Hour, Quantity, Readings};
use exact::Ends;

// How an equation joins its two readings: left × right, or left / right.
#[derive(Clone, Copy)]
pub enum Form {
    Product,
    Quotient,
}

// An equation in recorded units, those of its figure and of its readings: num × left × right / den, or num × left / (den × right).
#[derive(Clone, Copy)]
pub struct Formula {
    pub form: Form,
    pub num: u64,
    pub den: u64,
    pub left: u64,
    pub right: u64,
}

impl Formula {
    // F-15, F-1, F-6 and F-11.
    fn of(q: Quantity, r: Readings) -> Formula
        requires { ReadingsWithin r }
        ensures { Serves result q r }
    {
        match q {
            Quantity::Heat => Formula {
                form: Form::Product,
                num: 100,
                den: r.fc,
                left: r.co2,
                right: r.flow,
            },
            Quantity::So2 => Formula {
                form: Form::Product,
                num: 166,
                den: 1000000,
                left: r.so2,
                right: r.flow,
            },
            Quantity::Nox => Formula {
                form: Form::Quotient,
                num: 1194 * r.fc,
                den: 1000000,
                left: r.nox,
                right: r.co2,
            },
            Quantity::Co2 => Formula {
                form: Form::Product,
                num: 57,
                den: 100000,
                left: r.co2,
                right: r.flow,
            },
        }
    }

    // Whether the products of readings that record as these meet a figure.
    fn product_meets(self, figure: u64) -> bool
        requires { ProductRoom self × (figure ≤ 999999) }
        ensures { result ≡ formula_meets Form.Product self figure }
    {
        let x = Ends::of(self.left);
        let y = Ends::of(self.right);
        let v = Ends::of(figure);
        x.times(y).scaled(self.num).meets(v.scaled(2 * self.den))
    }

    // Whether their quotients do: the lowest has the divisor's high end and the highest its low end.
    fn quotient_meets(self, figure: u64) -> bool
        requires { QuotientRoom self × (figure ≤ 999999) }
        ensures { result ≡ formula_meets Form.Quotient self figure }
    {
        let x = Ends::of(self.left);
        let z = Ends::of(self.right);
        let v = Ends::of(figure);
        x.scaled(2 * self.num).meets(v.times(z.scaled(self.den)))
    }
}

// Whether SO2 from heats that record as the hour's heat meets its SO2 figure, both in half units: 0.0006 lb/mmBtu is 3 lb for 5,000 mmBtu.
fn gas_passes(f: Figures) -> bool
    requires { FiguresWithin f }
    ensures { result ≡ gas_meets f }
{
    Ends::of(f.heat)
        .scaled(3)
        .meets(Ends::of(f.so2).scaled(5000))
}

// The next two match on the form themselves, so that the compiler knows it for each quantity: with the match in a method of `Formula` a
// quarter's check takes 2 % more instructions, and a report 1.5 %.

// Whether anything unrounded lies behind an hour's figure of a quantity. SO2 of a gas hour is judged by the hour's heat.
pub fn figure_passes(q: Quantity, h: Hour) -> bool
    requires { HourWithin h }
    ensures { Judges q h result }
{
    if h.by_heat(q) {
        return gas_passes(h.figures);
    }
    let formula = Formula::of(q, h.readings);
    let figure = h.figures.of(q);
    match formula.form {
        Form::Product => formula.product_meets(figure),
        Form::Quotient => formula.quotient_meets(figure),
    }
}

// The formula of recorded readings, rounded half up.
fn rounded_value(q: Quantity, r: Readings) -> u64
    requires { ReadingsWithin r }
    ensures { result ≡ rounded_value q r }
{
    let f = Formula::of(q, r);
    match f.form {
        Form::Product => exact::half_up(f.num * (f.left * f.right), f.den),
        Form::Quotient => exact::half_up(f.left * f.num, f.den * f.right),
    }
}

// The figures that the formulas give for recorded readings.
pub fn rounded_figures(r: Readings) -> Figures
    requires { ReadingsWithin r }
    ensures { result ≡ rounded_figures r }
{
    Figures {
        heat: rounded_value(Quantity::Heat, r),
        so2: rounded_value(Quantity::So2, r),
        nox: rounded_value(Quantity::Nox, r),
        co2: rounded_value(Quantity::Co2, r),
    }
}
