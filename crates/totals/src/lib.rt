// The running totals of a quarter, and the quarter's totals rounded once.
#![tactic(auto)]

ghost use Rattle.std.specs.Prelude.{◌≡◌, ◌*◌, ◌<◌, ◌≤◌};
ghost use Rattle.calendar.specs.Calendar.{most_hours};
ghost use Rattle.layout.specs.Values.{nox_rate, heat_rate, time_hours};
ghost use Rattle.formulas.specs.Hour.{FiguresWithin};
ghost use Rattle.totals.specs.Totals.{most_share, most_sum, share_of, ShareRoom, no_totals, with_hour, Room, mean_of, quarter_of};

use formulas::hour::Figures;

// The sums over the hours so far, in the order of record 301: SO2, CO2 and heat input as rate × time, in thousandths of lb, tons and
// mmBtu; NOx as the plain sum of its rates, in thousandths of lb/mmBtu, and by mass as rate × heat input × time, in millionths of lb.
// Beside them the count of the hours.
#[derive(Clone, Copy)]
pub struct Totals {
    pub sums: [u64; 5],
    pub hours: u64,
}

// A quarter's operating hours; SO2 and CO2 tons and heat input in tenths, the mean NOx rate in thousandths, NOx tons in tenths.
#[derive(Clone, Copy)]
pub struct Quarter {
    pub hours: u64,
    pub so2: u64,
    pub co2: u64,
    pub heat: u64,
    pub nox: u64,
    pub nox_tons: u64,
}

// A rate times its weight in the sum.
fn weighted(rate: u64, weight: u64) -> u64
    requires { (rate ≤ 999999) × (weight ≤ 100) }
    ensures { (result ≡ rate * weight) × (result ≤ most_share) }
{
    rate * weight
}

// F-24: the NOx rate times the heat input times the operating time.
fn mass(rate: u64, heat: u64, time: u64) -> u64
    requires { (rate ≤ nox_rate.most) × (heat ≤ heat_rate.most) × (time ≤ time_hours.most) }
    ensures { (result ≡ rate * heat * time) × (result ≤ most_share) }
{
    rate * heat * time
}

// One hour's share of the sums: amounts are rates over the operating time; the NOx rate is added as it is, and by mass.
pub fn share_of(figures: Figures, time: u64) -> [u64; 5]
    requires { FiguresWithin figures × (time ≤ 100) }
    ensures { (result ≡ share_of figures time) × ShareRoom result }
{
    [
        weighted(figures.so2, time),
        weighted(figures.co2, time),
        weighted(figures.heat, time),
        weighted(figures.nox, 1),
        mass(figures.nox, figures.heat, time),
    ]
}

impl Totals {
    // Of no hour.
    pub fn none() -> Totals
        ensures { (result ≡ no_totals) × Room result }
    {
        Totals {
            sums: [0; 5],
            hours: 0,
        }
    }

    // Grown by one hour.
    pub fn with_hour(mut self, figures: Figures, time: u64) -> Totals
        requires { Room self × (self.hours < most_hours) × FiguresWithin figures × (time ≤ 100) }
        ensures { (result ≡ with_hour self figures time) × Room result }
    {
        let share = share_of(figures, time);
        for i in 0..share.len() {
            self.sums[i] += share[i];
        }
        self.hours += 1;
        self
    }

    // Rounded once.
    pub fn quarter(self) -> Quarter
        requires { Room self }
        ensures { result ≡ quarter_of self }
    {
        let Totals { sums, hours } = self;
        let [so2, co2, heat, nox, nox_mass] = sums;
        Quarter {
            hours,
            so2: exact::half_up(so2, 200000),
            co2: exact::half_up(co2, 100),
            heat: exact::half_up(heat, 100),
            nox: mean(nox, hours),
            nox_tons: exact::half_up(nox_mass, 200000000),
        }
    }
}

// The sum of n rates over n, rounded; 0 for no rate.
fn mean(sum: u64, n: u64) -> u64
    requires { (sum ≤ most_sum) × (n ≤ most_hours) }
    ensures { result ≡ mean_of sum n }
{
    if n == 0 {
        return 0;
    }
    exact::half_up(sum, n)
}
