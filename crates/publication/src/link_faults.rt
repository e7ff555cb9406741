use plain_data::OutOfMemory;
use thiserror::Error;

/// Why a call over a link failed.
#[derive(Clone, Copy, Debug, PartialEq, Eq, Error)]
pub enum LinkFault {
    /// The node can't be reached. It was counted, and nothing else changed, but that a message was noted.
    #[error("the node can't be reached")]
    Unreachable = 1,

    /// There was not enough memory. The node holds what it held, or the message's state.
    #[error("out of memory")]
    OutOfMemory = 2,
}

impl From<OutOfMemory> for LinkFault {
    ghost use Rattle.std.specs.Prelude.{◌≡◌};
    ghost use Rattle.publication.specs.declared.link_faults.LinkFault.TheVariants.{OutOfMemory};

    ghost from_gives = { λ _ fault. fault ≡ OutOfMemory };

    fn from(_error: OutOfMemory) -> LinkFault {
        LinkFault::OutOfMemory
    }
}
