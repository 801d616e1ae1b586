//! Meters, which count expansions.

ghost use Rattle.std.specs.Prelude.{◌≡◌, ◌≢◌, ◌+◌, ◌<◌, ◌^◌, ℕ, Bool, true, false};

/// Counts expansions. A meter is split into parts, one for each worker, which are joined to it again. A part cannot be
/// split, so a part that is dropped leaves the number of parts that are out raised for good.
pub trait Meter: Send + Sync + Drop {
    /// How many expansions were counted.
    ghost count: { Self → ℕ };

    /// How many parts are out.
    ghost parts_out: { Self → ℕ };

    /// Whether the meter is itself a part.
    ghost is_part: { Self → Bool };

    /// Counts one more.
    fn raise(&mut self)
        requires { count self.old < 2 ^ 63 }
        ensures count { count self.new ≡ count self.old + 1 }
        ensures parts { parts_out self.new ≡ parts_out self.old }
        ensures part { is_part self.new ≡ is_part self.old };

    /// A part that has counted nothing.
    fn split(&mut self) -> Self
        requires whole { is_part self.old ≡ false }
        requires few { parts_out self.old < 1000 }
        ensures new { (count result ≡ 0) × (parts_out result ≡ 0) × (is_part result ≡ true) }
        ensures count { count self.new ≡ count self.old }
        ensures parts { parts_out self.new ≡ parts_out self.old + 1 }
        ensures part { is_part self.new ≡ is_part self.old };

    /// Adds what a part has counted.
    fn join(&mut self, part: Self)
        requires part { is_part part ≡ true }
        requires whole { is_part self.old ≡ false }
        requires out { parts_out self.old ≢ 0 }
        requires few { count self.old + count part < 2 ^ 63 }
        ensures count { count self.new ≡ count self.old + count part }
        ensures parts { parts_out self.new + 1 ≡ parts_out self.old }
        ensures part { is_part self.new ≡ is_part self.old };
}

/// A meter that keeps its numbers.
#[derive(Drop)]
pub struct CountMeter {
    count: u64,
    parts_out: u64,
    is_part: bool,
}

impl CountMeter {
    /// A meter that is no part, has counted nothing, and has no parts out.
    pub fn new() -> CountMeter
        ensures count { result.count ≡ 0 }
        ensures parts { result.parts_out ≡ 0 }
        ensures part { result.is_part ≡ false }
    {
        CountMeter {
            count: 0,
            parts_out: 0,
            is_part: false,
        }
    }

    /// How many expansions were counted.
    pub fn count(&self) -> u64
        ensures { result ≡ self.now.count }
    {
        self.count
    }
}

impl Meter for CountMeter {
    ghost count = { λ m. m.count };

    ghost parts_out = { λ m. m.parts_out };

    ghost is_part = { λ m. m.is_part };

    fn raise(&mut self) {
        self.count += 1;
    }

    fn split(&mut self) -> CountMeter {
        self.parts_out += 1;
        CountMeter {
            count: 0,
            parts_out: 0,
            is_part: true,
        }
    }

    fn join(&mut self, part: CountMeter) {
        self.count += part.count;
        self.parts_out -= 1;
    }
}
