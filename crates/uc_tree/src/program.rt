// Programs, which contracts see as trees without pointers.

use crate::class::{Class, Routine, Sig};
use crate::expr::Expr;
use crate::kinds::{Base, Forward};
use crate::name::Name;
use crate::pos::Pos;
use std::marker::Model;

/// `const base name = value;`
#[derive(Drop)]
pub struct Constant {
    pub pos: Pos,
    pub base: Base,
    pub name: Name,
    pub value: Expr,
}

impl Model for Constant {
    ghost use Rattle.uc_tree.specs.Programs.{Constant};
    ghost use Rattle.uc_tree.specs.ProgramCodes.{constant_coded};

    ghost Value = { Constant };

    ghost coded = { constant_coded };

    ghost view = { λ a. record { pos = a.pos; base = a.base; name = a.name; value = a.value } };
}

/// An item of a program.
#[derive(Drop)]
pub struct Item {
    pub form: ItemForm,
}

impl Model for Item {
    ghost use Rattle.uc_tree.specs.Programs.{Item};
    ghost use Rattle.uc_tree.specs.ProgramCodes.{item_coded};

    ghost Value = { Item };

    ghost coded = { item_coded };

    ghost use Rattle.uc_tree.specs.ItemViews.{item_at};

    ghost view = { λ a. item_at a.form };
}

/// What an item is.
#[derive(Drop)]
pub enum ItemForm {
    Class { class: Class },
    Routine { routine: Routine },
    Constant { constant: Constant },
    Proto { sig: Sig },
    Forward { forward: Forward },
    Using { pos: Pos },
}

/// A program: its items in textual order.
#[derive(Drop)]
pub struct Program {
    pub items: Vec<Item>,
}

impl Model for Program {
    ghost use Rattle.uc_tree.specs.Programs.{Program};
    ghost use Rattle.uc_tree.specs.ProgramCodes.{program_coded};

    ghost Value = { Program };

    ghost coded = { program_coded };

    ghost view = { λ a. record { items = a.items.items } };
}
