// Expressions, which contracts see as trees without pointers.

ghost use Rattle.std.specs.Prelude.{◌≡◌, IfOk};
ghost use Rattle.uc_tree.specs.Expressions.{Number, Character, Truth, Name, Cin, Postfix, Unary, Chain, Assign, Field, Index, Call, Step, Linked, chained, with_parts, expr_pos};

use crate::name::Name;
use crate::ops::{AssignOp, BinaryOp, StepOp, UnaryOp};
use crate::pos::Pos;
use std::alloc::{AllocError, Global};
use std::marker::Model;

/// An expression, with the place of its first token. Parentheses leave no node.
#[cycle(expr)]
#[derive(Drop)]
pub struct Expr {
    pub pos: Pos,
    pub form: ExprForm,
}

impl Model for Expr {
    ghost use Rattle.uc_tree.specs.Expressions.{Expr};
    ghost use Rattle.uc_tree.specs.ExpressionCodes.{expr_coded};

    ghost Value = { Expr };

    ghost coded = { expr_coded };

    ghost use Rattle.uc_tree.specs.ExpressionViews.{expr_at};

    ghost view = { λ a. expr_at a.pos a.form };

    ghost use Rattle.uc_tree.specs.ExpressionSizes.{expr_size};

    ghost size = { expr_size };

    ghost use Rattle.std.proofs.Common.{arith};
    ghost use Rattle.uc_tree.specs.ExpressionFalls.{expr_falls};

    ghost size_decreases = { λ a h. Prim.omega (arith, expr_falls a.pos a.form) };
}

/// The form of an expression. The operators of one left-to-right chain stand in a list, and so do
/// the parts behind a root.
#[cycle(expr)]
#[derive(Drop)]
pub enum ExprForm {
    Number {
        value: i64,
    },
    Character {
        byte: u8,
    },
    Truth {
        value: bool,
    },
    Name {
        name: Name,
    },
    Cin,
    Postfix {
        root: Box<Expr>,
        parts: Vec<Part>,
    },
    Unary {
        op: UnaryOp,
        operand: Box<Expr>,
    },
    Chain {
        first: Box<Expr>,
        rest: Vec<Link>,
    },
    Assign {
        sign: Pos,
        op: AssignOp,
        place: Box<Expr>,
        value: Box<Expr>,
    },
}

/// A part behind the root of a postfix expression, with the place of its own sign.
#[cycle(expr)]
#[derive(Drop)]
pub struct Part {
    pub sign: Pos,
    pub form: PartForm,
}

impl Model for Part {
    ghost use Rattle.uc_tree.specs.Expressions.{Part};
    ghost use Rattle.uc_tree.specs.ExpressionCodes.{part_coded};

    ghost Value = { Part };

    ghost coded = { part_coded };

    ghost use Rattle.uc_tree.specs.ExpressionViews.{part_at};

    ghost view = { λ a. part_at a.sign a.form };

    ghost use Rattle.uc_tree.specs.ExpressionSizes.{part_size};

    ghost size = { part_size };

    ghost use Rattle.std.proofs.Common.{arith};
    ghost use Rattle.uc_tree.specs.ExpressionFalls.{part_falls};

    ghost size_decreases = { λ a h. Prim.omega (arith, part_falls a.sign a.form) };
}

/// The form of a part.
#[cycle(expr)]
#[derive(Drop)]
pub enum PartForm {
    Field { name: Name },
    Index { index: Expr },
    Call { args: Vec<Expr> },
    Step { op: StepOp },
}

/// An operator of a chain, with its own place, and its right side.
#[cycle(expr)]
#[derive(Drop)]
pub struct Link {
    pub sign: Pos,
    pub op: BinaryOp,
    pub right: Expr,
}

impl Model for Link {
    ghost use Rattle.uc_tree.specs.Expressions.{Link, Linked};
    ghost use Rattle.uc_tree.specs.ExpressionCodes.{link_coded};

    ghost Value = { Link };

    ghost coded = { link_coded };

    ghost view = { λ a. Linked a.sign a.op a.right };

    ghost use Rattle.uc_tree.specs.ExpressionSizes.{link_size};

    ghost size = { link_size };

    ghost use Rattle.std.proofs.Common.{arith};

    ghost size_decreases = { λ a h. Prim.omega arith };
}

impl Expr {
    /// The place of the first token.
    pub fn first_token(&self) -> Pos
        ensures { result ≡ expr_pos self.now }
    {
        self.pos
    }

    /// An operator before its operand, whose place is the expression's.
    pub fn unary(alloc: Global, at: Pos, op: UnaryOp, operand: Expr) -> Result<Expr, AllocError>
        ensures { IfOk result (λ e. e ≡ Unary at op operand) }
    {
        let operand = Box::new(alloc, operand)?;
        Ok(Expr {
            pos: at,
            form: ExprForm::Unary { op, operand },
        })
    }

    /// An assignment whose operator stands at `sign`.
    pub fn assign(
        alloc: Global,
        at: Pos,
        sign: Pos,
        op: AssignOp,
        place: Expr,
        value: Expr,
    ) -> Result<Expr, AllocError>
        ensures { IfOk result (λ e. e ≡ Assign at sign op place value) }
    {
        let place = Box::new(alloc, place)?;
        let value = Box::new(alloc, value)?;
        Ok(Expr {
            pos: at,
            form: ExprForm::Assign {
                sign,
                op,
                place,
                value,
            },
        })
    }

    /// A chain, or its first operand where no operator follows.
    pub fn chained(alloc: Global, at: Pos, first: Expr, rest: Vec<Link>) -> Result<Expr, AllocError>
        ensures { IfOk result (λ e. e ≡ chained at first rest.items) }
    {
        if rest.is_empty() {
            return Ok(first);
        }
        let first = Box::new(alloc, first)?;
        Ok(Expr {
            pos: at,
            form: ExprForm::Chain { first, rest },
        })
    }

    /// A root and the parts behind it, or the root where no part follows.
    pub fn with_parts(
        alloc: Global,
        at: Pos,
        root: Expr,
        parts: Vec<Part>,
    ) -> Result<Expr, AllocError>
        ensures { IfOk result (λ e. e ≡ with_parts at root parts.items) }
    {
        if parts.is_empty() {
            return Ok(root);
        }
        let root = Box::new(alloc, root)?;
        Ok(Expr {
            pos: at,
            form: ExprForm::Postfix { root, parts },
        })
    }
}
