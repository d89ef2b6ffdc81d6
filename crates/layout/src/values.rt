// The values of records: their columns, decimals, ranges and steps.
ghost use Rattle.std.specs.Prelude.{◌≡◌, ◌≤◌};
ghost use Rattle.layout.specs.Values.{in_range, whole_steps, within, Within, flow_scfh, thousands_of, scfh_of};

// A value's first column (from 1), width and decimals (0: a whole number); in units of its last decimal, the least and the most it may be
// and the step of which it is a multiple.
#[derive(Clone, Copy)]
pub struct Value {
    pub start: usize,
    pub width: usize,
    pub decimals: usize,
    pub least: u64,
    pub most: u64,
    pub step: u64,
}

// Line 100 has the year and the quarter, digits only.
pub const YEAR: Value = Value {
    start: 10,
    width: 4,
    decimals: 0,
    least: 1995,
    most: 2094,
    step: 1,
};

pub const QUARTER: Value = Value {
    start: 14,
    width: 1,
    decimals: 0,
    least: 1,
    most: 4,
    step: 1,
};

// Whether a number lies between a value's least and its most.
pub fn in_range(v: Value, k: u64) -> bool
    ensures { result ≡ in_range v k }
{
    (v.least <= k) & (k <= v.most)
}

// Whether a number is a multiple of a value's step. Every number is one of 1: nothing is divided there.
pub fn whole_steps(v: Value, k: u64) -> bool
    requires { 1 ≤ v.step }
    ensures { result ≡ whole_steps v k }
{
    if v.step == 1 {
        return true;
    }
    k % v.step == 0
}

// Whether a number lies in a value's range and is a multiple of its step.
pub fn within(v: Value, k: u64) -> bool
    requires { 1 ≤ v.step }
    ensures { result ≡ within v k }
{
    in_range(v, k) & whole_steps(v, k)
}

pub const NO_VALUE: Value = Value {
    start: 0,
    width: 0,
    decimals: 0,
    least: 0,
    most: 0,
    step: 1,
};

pub const SO2_PPM: Value = Value {
    start: 35,
    width: 6,
    decimals: 1,
    least: 0,
    most: 99999,
    step: 1,
};

pub const NOX_PPM: Value = Value {
    start: 29,
    width: 6,
    decimals: 1,
    least: 0,
    most: 99999,
    step: 1,
};

pub const CO2_PERCENT: Value = Value {
    start: 29,
    width: 6,
    decimals: 1,
    least: 1,
    most: 1000,
    step: 1,
};

pub const FLOW_SCFH: Value = Value {
    start: 39,
    width: 10,
    decimals: 0,
    least: 0,
    most: 9999999000,
    step: 1000,
};

// The time of an operating hour, and that of any hour which is listed: an idle one has 0.00.

pub const TIME_HOURS: Value = Value {
    start: 18,
    width: 4,
    decimals: 2,
    least: 1,
    most: 100,
    step: 1,
};

pub const LISTED_TIME: Value = Value {
    start: TIME_HOURS.start,
    width: TIME_HOURS.width,
    decimals: TIME_HOURS.decimals,
    least: 0,
    most: TIME_HOURS.most,
    step: TIME_HOURS.step,
};

pub const HEAT_RATE: Value = Value {
    start: 36,
    width: 7,
    decimals: 1,
    least: 0,
    most: 999999,
    step: 1,
};

pub const SO2_TONS: Value = Value {
    start: 10,
    width: 11,
    decimals: 1,
    least: 0,
    most: 9999999999,
    step: 1,
};

pub const CO2_TONS: Value = Value {
    start: 21,
    width: 11,
    decimals: 1,
    least: 0,
    most: 9999999999,
    step: 1,
};

pub const HEAT_TOTAL: Value = Value {
    start: 32,
    width: 11,
    decimals: 1,
    least: 0,
    most: 9999999999,
    step: 1,
};

pub const NOX_MEAN: Value = Value {
    start: 43,
    width: 6,
    decimals: 3,
    least: 0,
    most: 99999,
    step: 1,
};

pub const NOX_TONS: Value = Value {
    start: 49,
    width: 11,
    decimals: 1,
    least: 0,
    most: 9999999999,
    step: 1,
};

pub const SO2_RATE: Value = Value {
    start: 25,
    width: 7,
    decimals: 1,
    least: 0,
    most: 999999,
    step: 1,
};

pub const F_FACTOR: Value = Value {
    start: 26,
    width: 10,
    decimals: 1,
    least: 5000,
    most: 30000,
    step: 1,
};

pub const NOX_RATE: Value = Value {
    start: 36,
    width: 6,
    decimals: 3,
    least: 0,
    most: 99999,
    step: 1,
};

pub const CO2_RATE: Value = Value {
    start: 18,
    width: 7,
    decimals: 1,
    least: 0,
    most: 999999,
    step: 1,
};

// Flow is recorded in whole thousands: how many there are in a number of scfh, and the scfh of so many.

pub fn thousands_of(scfh: u64) -> u64
    ensures { result ≡ thousands_of scfh }
{
    scfh / FLOW_SCFH.step
}

pub fn scfh_of(thousands: u64) -> u64
    requires { Within flow_scfh (scfh_of thousands) }
    ensures { result ≡ scfh_of thousands }
{
    FLOW_SCFH.step * thousands
}
