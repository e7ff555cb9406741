ghost use Rattle.std.specs.Prelude.{◌≡◌};

use thiserror::Error;

/// The client's lane has no word for the step. Nothing changed.
#[derive(Clone, Copy, Debug, PartialEq, Eq, Error)]
#[error("the lane is full")]
pub struct LaneFull;

impl LaneFull {
    /// Its number, which is 1.
    pub fn number(&self) -> u8
        ensures { result ≡ 1 }
    {
        1
    }
}
