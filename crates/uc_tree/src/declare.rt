// Parts of statements that hold no statement: declarators, raised events, printed items.

use crate::expr::Expr;
use crate::kinds::Base;
use crate::name::{Name, Text};
use crate::pos::Pos;
use std::marker::Model;

/// How a declared variable starts.
#[derive(Drop)]
pub struct Start {
    pub form: StartForm,
}

impl Model for Start {
    ghost use Rattle.uc_tree.specs.Statements.{Start};
    ghost use Rattle.uc_tree.specs.StatementCodes.{start_coded};

    ghost Value = { Start };

    ghost coded = { start_coded };

    ghost use Rattle.uc_tree.specs.StatementViews.{start_at};

    ghost view = { λ a. start_at a.form };
}

/// The form of a start: nothing, `= value`, or `(args)` or `{args}`.
#[derive(Drop)]
pub enum StartForm {
    Nothing,
    Value { value: Expr },
    Args { args: Vec<Expr> },
}

/// A variable or a field.
#[derive(Drop)]
pub struct Declarator {
    pub pos: Pos,
    pub by_ref: bool,
    pub name: Name,
    pub len: Option<Expr>,
    pub start: Start,
}

impl Model for Declarator {
    ghost use Rattle.uc_tree.specs.Statements.{Declarator};
    ghost use Rattle.uc_tree.specs.StatementCodes.{declarator_coded};

    ghost Value = { Declarator };

    ghost coded = { declarator_coded };

    ghost view = { λ a. record { pos = a.pos; by_ref = a.by_ref; name = a.name; len = a.len; start = a.start } };
}

/// An event that is raised, with its arguments.
#[derive(Drop)]
pub struct Raised {
    pub pos: Pos,
    pub name: Name,
    pub args: Vec<Expr>,
}

impl Model for Raised {
    ghost use Rattle.uc_tree.specs.Expressions.{exprs_of};
    ghost use Rattle.uc_tree.specs.Statements.{Raised};
    ghost use Rattle.uc_tree.specs.StatementCodes.{raised_coded};

    ghost Value = { Raised };

    ghost coded = { raised_coded };

    ghost view = { λ a. record { pos = a.pos; name = a.name; args = exprs_of a.args.items } };
}

/// A printed item, with the place of its `<<`.
#[derive(Drop)]
pub struct OutItem {
    pub sign: Pos,
    pub form: OutForm,
}

impl Model for OutItem {
    ghost use Rattle.uc_tree.specs.Statements.{OutItem};
    ghost use Rattle.uc_tree.specs.StatementCodes.{out_item_coded};

    ghost Value = { OutItem };

    ghost coded = { out_item_coded };

    ghost use Rattle.uc_tree.specs.StatementViews.{out_at};

    ghost view = { λ a. out_at a.sign a.form };
}

/// The form of a printed item.
#[derive(Drop)]
pub enum OutForm {
    Endl,
    Literal { text: Text },
    Value { value: Expr },
}

/// What a `for` begins with.
#[derive(Drop)]
pub struct ForStart {
    pub form: ForForm,
}

impl Model for ForStart {
    ghost use Rattle.uc_tree.specs.Statements.{ForStart};
    ghost use Rattle.uc_tree.specs.StatementCodes.{for_start_coded};

    ghost Value = { ForStart };

    ghost coded = { for_start_coded };

    ghost use Rattle.uc_tree.specs.StatementViews.{for_at};

    ghost view = { λ a. for_at a.form };
}

/// The form of what a `for` begins with; a declaration has the place of its base.
#[derive(Drop)]
pub enum ForForm {
    Nothing,
    Declare {
        pos: Pos,
        base: Base,
        declarators: Vec<Declarator>,
    },
    Evaluate {
        value: Expr,
    },
}
