// The faults of stores and sinks.
ghost use Rattle.std.specs.Prelude.{◌≡◌};
ghost use Rattle.uc_outside.specs.declared.faults.StoreFault.TheVariants.{NoMemory};

use std::alloc::AllocError;

/// Why a store gave no bytes.
#[derive(Clone, Copy)]
pub enum StoreFault {
    /// There are no such bytes, or they could not be read. The store counts it.
    Failed,
    /// The bytes exceed the limit.
    TooLong,
    /// Memory was refused.
    NoMemory,
}

/// Why a sink took nothing.
#[derive(Clone, Copy)]
pub enum SinkFault {
    /// The sink could not take the piece. The sink counts it.
    Failed,
}

impl From<AllocError> for StoreFault {
    ghost from_gives = { λ _ e. e ≡ NoMemory };

    fn from(_e: AllocError) -> StoreFault {
        StoreFault::NoMemory
    }
}
