// Half-up rounding and rounding spans in 64-bit arithmetic.
#![tactic(auto)]

ghost use Rattle.std.specs.Prelude.{◌≡◌, ◌+◌, ◌*◌, ◌<◌, ◌^◌};
ghost use Rattle.exact.specs.Rounding.{low_end, high_end, nearest};
ghost use Rattle.exact.specs.Behind.{meets};

// A range of values: from `from` up to but not including `below`.
#[derive(Clone, Copy)]
pub struct Ends {
    pub from: u64,
    pub below: u64,
}

impl Ends {
    // The ends of the rounding span of k units, in half units.
    pub fn of(k: u64) -> Ends
        requires { k < 2 ^ 62 }
        ensures { (result.from ≡ low_end k) × (result.below ≡ high_end k) }
    {
        Ends {
            from: (2 * k).saturating_sub(1),
            below: 2 * k + 1,
        }
    }

    // Both ends times a number.
    pub fn scaled(self, by: u64) -> Ends
        requires { (self.from * by < 2 ^ 64) × (self.below * by < 2 ^ 64) }
        ensures { (result.from ≡ self.from * by) × (result.below ≡ self.below * by) }
    {
        Ends {
            from: self.from * by,
            below: self.below * by,
        }
    }

    // End times end.
    pub fn times(self, other: Ends) -> Ends
        requires { (self.from * other.from < 2 ^ 64) × (self.below * other.below < 2 ^ 64) }
        ensures { (result.from ≡ self.from * other.from) × (result.below ≡ self.below * other.below) }
    {
        Ends {
            from: self.from * other.from,
            below: self.below * other.below,
        }
    }

    // Whether there are values in both ranges.
    #[tactic(auto, unfolding(crate::specs::Behind::meets))]
    pub fn meets(self, other: Ends) -> bool
        ensures { result ≡ meets self.from self.below other.from other.below }
    {
        self.from < other.below && other.from < self.below
    }
}

// x / d, rounded half up.
pub fn half_up(x: u64, d: u64) -> u64
    requires { (0 < d) × (2 * x + 2 * d < 2 ^ 64) }
    ensures { result ≡ nearest x d }
{
    (2 * x + d) / (2 * d)
}
