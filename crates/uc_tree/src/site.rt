// Accept statements as the kernel knows them.

use std::marker::Model;

/// What an accept statement may take: its class, for each of its clauses the numbers of the members that it lists, and
/// whether there is an `_Else`.
#[derive(Drop)]
pub struct Site {
    pub class: u32,
    pub clauses: Vec<Members>,
    pub has_else: bool,
}

impl Model for Site {
    ghost use Rattle.uc_tree.specs.Programs.{Site};
    ghost use Rattle.uc_tree.specs.ProgramCodes.{site_coded};

    ghost Value = { Site };

    ghost coded = { site_coded };

    ghost view = { λ a. record { class = a.class; clauses = a.clauses.items; has_else = a.has_else } };
}

/// The numbers of the members that a clause lists. Contracts see the list.
#[derive(Drop)]
pub struct Members {
    pub numbers: Vec<u8>,
}

impl Model for Members {
    ghost use Rattle.std.specs.Prelude.{List, ℕ};

    ghost Value = { List ℕ };

    ghost view = { λ a. a.numbers.items };
}
