use std::marker::Model;

/// The last moment that a clock may answer, in milliseconds.
pub const LAST_MOMENT: u64 = (1 << 43) - 2;

/// Tells the time, in milliseconds since some start of its own. Nothing says that it goes forward.
pub trait Clock {
    ghost use Rattle.std.specs.Prelude.{◌≤◌, ◌-◌, ◌^◌, ℕ, Bool, IsTrue};

    /// Whether the clock may answer this moment.
    ghost may_read: { Self → ℕ → Bool };

    /// The moment, in milliseconds: one that the clock may answer, and at most 2^43 - 2.
    fn now(&self) -> u64
        ensures possible { IsTrue (may_read self.now result) }
        ensures bound { result ≤ 2 ^ 43 - 2 };
}

/// A clock that stands still at one moment.
#[derive(Debug, Drop)]
pub struct Frozen {
    moment: u64,
}

impl Model for Frozen {
    ghost use Rattle.std.specs.Prelude.{◌≤◌, ◌-◌, ◌^◌, ℕ};

    ghost Value = { ℕ };

    ghost view = { λ clock. clock.moment };

    ghost invariant = { λ clock. clock.moment ≤ 2 ^ 43 - 2 };
}

impl Frozen {
    ghost use Rattle.std.specs.Prelude.{◌≡◌, ◌≤◌, ◌-◌, ◌^◌};

    /// A clock that answers this moment alone, in milliseconds.
    pub fn new(moment: u64) -> Frozen
        requires { moment ≤ 2 ^ 43 - 2 }
        ensures { result ≡ moment }
    {
        Frozen { moment }
    }
}

impl Clock for Frozen {
    ghost use Rattle.std.specs.Prelude.{◌==◌};

    ghost may_read = { λ clock moment. moment == clock };

    fn now(&self) -> u64 {
        self.moment
    }
}
