// Why a text has no tokens.

ghost use Rattle.std.specs.Prelude.{◌≡◌};
ghost use Rattle.uc_lex.specs.declared.fault.LexFault.TheVariants.{NoMemory};

use std::alloc::{AllocError, AllocFailed};

/// Why a text has no tokens. `at` is the offset, from 0, at which no token can stand.
#[derive(Clone, Copy, Debug)]
pub enum LexFault {
    /// A byte that cannot stand there.
    BadByte { at: u32 },
    /// A comment that begins there has no end.
    OpenComment { at: u32 },
    /// A text or a character literal that begins there has no end on its line.
    OpenText { at: u32 },
    /// The number that begins there is above `NUMBER_MAX`.
    NumberTooWide { at: u32 },
    /// The value of the text literal that begins there has `len` bytes, more than `TEXT_BYTES`.
    TextTooLong { at: u32, len: u32 },
    /// There was no memory.
    NoMemory,
}

impl From<AllocError> for LexFault {
    ghost from_gives = { λ _ f. f ≡ NoMemory };

    fn from(_e: AllocError) -> LexFault {
        LexFault::NoMemory
    }
}

impl<T: Drop> From<AllocFailed<T>> for LexFault {
    ghost from_gives = { λ _ f. f ≡ NoMemory };

    fn from(_e: AllocFailed<T>) -> LexFault {
        LexFault::NoMemory
    }
}
