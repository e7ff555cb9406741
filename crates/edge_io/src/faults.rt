use plain_data::OutOfMemory;
use std::alloc::AllocError;
use thiserror::Error;

/// A read or a write failed. It took or appended nothing, and was counted.
#[derive(Clone, Copy, Debug, PartialEq, Eq, Error)]
#[error("a read or a write failed")]
pub struct Failed;

/// A write failed. A part of the bytes, from the front and not all, was written.
#[derive(Clone, Copy, Debug, PartialEq, Eq, Error)]
#[error("a write failed")]
pub struct WriteFault;

/// Why no input was collected. The bytes that were read by then are taken from the source and gone: at most as
/// many as the limit, or, where the input is too long, one more.
#[derive(Clone, Copy, Debug, PartialEq, Eq, Error)]
pub enum CollectFault {
    /// A read failed.
    #[error("a read failed")]
    ReadFault = 1,
    /// There are more bytes than the limit.
    #[error("the input is too long")]
    TooLong = 2,
    /// There was not enough memory for the bytes.
    #[error("out of memory")]
    OutOfMemory = 3,
}

impl From<OutOfMemory> for CollectFault {
    ghost use Rattle.std.specs.Prelude.{◌≡◌};
    ghost use Rattle.edge_io.specs.declared.faults.CollectFault.TheVariants.{OutOfMemory};

    ghost from_gives = { λ _ fault. fault ≡ OutOfMemory };

    fn from(_error: OutOfMemory) -> CollectFault {
        CollectFault::OutOfMemory
    }
}

impl From<AllocError> for CollectFault {
    ghost use Rattle.std.specs.Prelude.{◌≡◌};
    ghost use Rattle.edge_io.specs.declared.faults.CollectFault.TheVariants.{OutOfMemory};

    ghost from_gives = { λ _ fault. fault ≡ OutOfMemory };

    fn from(_error: AllocError) -> CollectFault {
        CollectFault::OutOfMemory
    }
}
