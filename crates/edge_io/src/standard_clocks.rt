use crate::{Clock, LAST_MOMENT};
use std::time;
use std::time::Instant;

/// The system's clock, as `MillisClock::new(&rt)`: the milliseconds since it was made, at most 2^43 - 2, and 0 where
/// the system's clock can't be read. No contract can name the system's time, so that it is told is tested.
#[derive(Drop)]
pub struct MillisClock<R: time::Clock + Drop> {
    system: R,
    start: Option<Instant>,
}

impl<R: time::Clock + Drop> MillisClock<R> {
    /// A clock that begins now, at 0.
    pub fn new(system: R) -> MillisClock<R> {
        let start = Instant::now(&system).ok();
        MillisClock { system, start }
    }

    // The milliseconds since the start, where both can be read.
    fn elapsed(&self) -> Option<u128> {
        let elapsed = self.start?.elapsed(&self.system).ok()?;
        Some(elapsed.as_millis())
    }
}

impl<R: time::Clock + Drop> Clock for MillisClock<R> {
    ghost use Rattle.std.specs.Prelude.{◌-◌, ◌^◌, nat_le};

    ghost may_read = { λ _ moment. nat_le moment (2 ^ 43 - 2) };

    fn now(&self) -> u64 {
        self.elapsed().unwrap_or(0).min(LAST_MOMENT as u128) as u64
    }
}
