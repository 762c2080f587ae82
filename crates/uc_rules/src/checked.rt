// Why a program is not accepted by the rules.

ghost use Rattle.std.specs.Prelude.{◌≡◌};
ghost use Rattle.uc_rules.specs.declared.checked.RuleFault.TheVariants.{NoMemory};

use crate::rule::Rule;
use std::alloc::{AllocError, AllocFailed};
use uc_tree::pos::Pos;

/// Why a program is not accepted by the rules.
#[derive(Clone, Copy)]
pub enum RuleFault {
    /// The first rule that is broken, and where: of the rules on names, types and places, or where none of these is broken,
    /// of those on who owns what; by place, and then by number.
    Rule { rule: Rule, pos: Pos },
    /// Memory was refused.
    NoMemory,
}

impl From<AllocError> for RuleFault {
    ghost from_gives = { λ _ f. f ≡ NoMemory };

    fn from(_e: AllocError) -> RuleFault {
        RuleFault::NoMemory
    }
}

impl<T: Drop> From<AllocFailed<T>> for RuleFault {
    ghost from_gives = { λ _ f. f ≡ NoMemory };

    fn from(_e: AllocFailed<T>) -> RuleFault {
        RuleFault::NoMemory
    }
}
