// One operating hour as it is recorded. Each number is a count of units.
ghost use Rattle.std.specs.Prelude.{◌≡◌};
ghost use Rattle.formulas.specs.Hour.{figure_of};
ghost use Rattle.formulas.specs.Formulas.{by_heat};

// Tenths of ppm (SO2, NOx) and of percent (CO2), thousands of scfh (flow), tenths of scf/mmBtu (fc, the F-factor Fc).
#[derive(Clone, Copy)]
pub struct Readings {
    pub so2: u64,
    pub nox: u64,
    pub co2: u64,
    pub flow: u64,
    pub fc: u64,
}

// Tenths of mmBtu/hr (heat input rate), of lb/hr (SO2 mass rate) and of tons/hr (CO2 mass rate), thousandths of lb/mmBtu (NOx rate).
#[derive(Clone, Copy)]
pub struct Figures {
    pub heat: u64,
    pub so2: u64,
    pub nox: u64,
    pub co2: u64,
}

// The operating time is in hundredths of an hour. In a gas hour no SO2 monitor runs: SO2 comes from the heat, and readings.so2 is 0.
#[derive(Clone, Copy)]
pub struct Hour {
    pub time: u64,
    pub gas: bool,
    pub readings: Readings,
    pub figures: Figures,
}

// What is judged of an hour, in the order of judging.
#[derive(Clone, Copy)]
pub enum Quantity {
    Heat,
    So2,
    Nox,
    Co2,
}

impl Figures {
    pub fn of(self, q: Quantity) -> u64
        ensures { result ≡ figure_of q self }
    {
        match q {
            Quantity::Heat => self.heat,
            Quantity::So2 => self.so2,
            Quantity::Nox => self.nox,
            Quantity::Co2 => self.co2,
        }
    }
}

impl Hour {
    // Whether a figure is judged by the hour's heat: SO2 of a gas hour.
    pub fn by_heat(self, q: Quantity) -> bool
        ensures { result ≡ by_heat q self }
    {
        matches!(q, Quantity::So2) && self.gas
    }
}
