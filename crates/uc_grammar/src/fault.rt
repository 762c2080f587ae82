// Why there is no tree.

ghost use Rattle.std.specs.Prelude.{◌≡◌};
ghost use Rattle.uc_grammar.specs.declared.fault.ParseFault.TheVariants.{NoMemory};

use std::alloc::{AllocError, AllocFailed};

/// Why there is no tree.
#[derive(Clone, Copy)]
pub enum ParseFault {
    /// The token at which the text stops being the beginning of one, from 0; the count of tokens where the text ends
    /// too early.
    Syntax { token: u32 },
    /// The token at which a piece begins that is nested too deep, from 0.
    TooDeep { token: u32 },
    /// Memory was refused.
    NoMemory,
}

impl From<AllocError> for ParseFault {
    ghost from_gives = { λ _ f. f ≡ NoMemory };

    fn from(_e: AllocError) -> ParseFault {
        ParseFault::NoMemory
    }
}

impl<T: Drop> From<AllocFailed<T>> for ParseFault {
    ghost from_gives = { λ _ f. f ≡ NoMemory };

    fn from(_e: AllocFailed<T>) -> ParseFault {
        ParseFault::NoMemory
    }
}
