// Statements, which contracts see as trees without pointers.

ghost use Rattle.std.specs.Prelude.{◌≡◌, IfOk};
ghost use Rattle.uc_tree.specs.Statements.{If, While, Do, For, Enable, Disable, Accept, clauses_of, maybe_stmt_of, stmt_pos};
ghost use Rattle.uc_tree.specs.StatementViews.{maybe_at};

use crate::declare::{Declarator, ForStart, OutItem, Raised};
use crate::expr::Expr;
use crate::kinds::{Base, EventName, HandlerKind, MemberName};
use crate::made::both;
use crate::name::Name;
use crate::pos::Pos;
use std::alloc::{AllocError, Global};
use std::marker::Model;

/// A statement, with the place of its first token.
#[cycle(stmt)]
#[derive(Drop)]
pub struct Stmt {
    pub pos: Pos,
    pub form: StmtForm,
}

impl Model for Stmt {
    ghost use Rattle.uc_tree.specs.Statements.{Stmt};
    ghost use Rattle.uc_tree.specs.StatementCodes.{stmt_coded};

    ghost Value = { Stmt };

    ghost coded = { stmt_coded };

    ghost use Rattle.uc_tree.specs.StatementForms.{stmt_at};

    ghost view = { λ a. stmt_at a.pos a.form };

    ghost use Rattle.uc_tree.specs.StatementSizes.{stmt_size};

    ghost size = { stmt_size };

    ghost use Rattle.std.proofs.Common.{arith};
    ghost use Rattle.uc_tree.specs.StatementFalls.{stmt_falls};

    ghost size_decreases = { λ a h. Prim.omega (arith, stmt_falls a.pos a.form) };
}

/// The form of a statement. A body in braces has the place of its `{`, `brace`.
#[cycle(stmt)]
#[derive(Drop)]
pub enum StmtForm {
    Block {
        body: Vec<Stmt>,
    },
    Empty,
    Evaluate {
        value: Expr,
    },
    Declare {
        base: Base,
        declarators: Vec<Declarator>,
    },
    If {
        test: Expr,
        chosen: Box<Stmt>,
        other: Option<Box<Stmt>>,
    },
    While {
        test: Expr,
        body: Box<Stmt>,
    },
    Do {
        body: Box<Stmt>,
        test: Expr,
    },
    For {
        start: ForStart,
        test: Option<Expr>,
        step: Option<Expr>,
        body: Box<Stmt>,
    },
    Break,
    Continue,
    Return {
        value: Option<Expr>,
    },
    Try {
        brace: Pos,
        body: Vec<Stmt>,
        handlers: Vec<Handler>,
    },
    /// `_Throw`, without an event that of the handler round it
    Throw {
        raised: Option<Raised>,
    },
    /// `_Resume`, without an event that of the handler round it
    Raise {
        raised: Option<Raised>,
    },
    /// `_Resume` with `_At`
    RaiseAt {
        raised: Raised,
        target: Expr,
    },
    Enable {
        events: Vec<EventName>,
        body: Box<Stmt>,
    },
    Disable {
        events: Vec<EventName>,
        body: Box<Stmt>,
    },
    Accept {
        clauses: Vec<Clause>,
        other: Option<Box<Stmt>>,
    },
    Print {
        items: Vec<OutItem>,
    },
    /// `osacquire`: the items are printed together
    PrintTogether {
        items: Vec<OutItem>,
    },
    Read {
        places: Vec<Expr>,
    },
    Resume,
    Suspend,
    Yield,
    Migrate {
        cluster: Expr,
    },
}

/// A handler of one event, or of any where none is named.
#[cycle(stmt)]
#[derive(Drop)]
pub struct Handler {
    pub pos: Pos,
    pub kind: HandlerKind,
    pub event: Option<Name>,
    pub param: Option<Name>,
    pub brace: Pos,
    pub body: Vec<Stmt>,
}

impl Model for Handler {
    ghost use Rattle.uc_tree.specs.Statements.{Handler, Handles, stmts_of};
    ghost use Rattle.uc_tree.specs.StatementCodes.{handler_coded};

    ghost Value = { Handler };

    ghost coded = { handler_coded };

    ghost view = { λ a. Handles a.pos a.kind a.event a.param a.brace (stmts_of a.body.items) };

    ghost use Rattle.uc_tree.specs.StatementSizes.{handler_size};

    ghost size = { handler_size };

    ghost use Rattle.std.proofs.Common.{arith};
    ghost use Rattle.uc_tree.specs.StatementFalls.{most_stmts};

    ghost size_decreases = { λ a h. Prim.omega (arith, most_stmts a.body.items) };
}

/// A clause of an accept statement.
#[cycle(stmt)]
#[derive(Drop)]
pub struct Clause {
    pub pos: Pos,
    pub guard: Option<Expr>,
    pub members: Vec<MemberName>,
    pub body: Stmt,
}

impl Model for Clause {
    ghost use Rattle.uc_tree.specs.Statements.{Clause, Accepts};
    ghost use Rattle.uc_tree.specs.StatementCodes.{clause_coded};

    ghost Value = { Clause };

    ghost coded = { clause_coded };

    ghost view = { λ a. Accepts a.pos a.guard a.members.items a.body };

    ghost use Rattle.uc_tree.specs.StatementSizes.{clause_size};

    ghost size = { clause_size };

    ghost use Rattle.std.proofs.Common.{arith};

    ghost size_decreases = { λ a h. Prim.omega arith };
}

impl Stmt {
    /// The place of the first token.
    pub fn first_token(&self) -> Pos
        ensures { result ≡ stmt_pos self.now }
    {
        self.pos
    }

    /// An `if`, with the statement of its `else` where it has one.
    pub fn if_of(
        alloc: Global,
        at: Pos,
        test: Expr,
        chosen: Stmt,
        other: Option<Stmt>,
    ) -> Result<Stmt, AllocError>
        ensures { IfOk result (λ s. s ≡ If at test chosen (maybe_stmt_of other)) }
    {
        let (chosen, other) = both(boxed(alloc, chosen), maybe_boxed(alloc, other))?;
        Ok(Stmt {
            pos: at,
            form: StmtForm::If {
                test,
                chosen,
                other,
            },
        })
    }

    /// A `while`.
    pub fn while_of(alloc: Global, at: Pos, test: Expr, body: Stmt) -> Result<Stmt, AllocError>
        ensures { IfOk result (λ s. s ≡ While at test body) }
    {
        let body = Box::new(alloc, body)?;
        Ok(Stmt {
            pos: at,
            form: StmtForm::While { test, body },
        })
    }

    /// A `do`.
    pub fn do_of(alloc: Global, at: Pos, body: Stmt, test: Expr) -> Result<Stmt, AllocError>
        ensures { IfOk result (λ s. s ≡ Do at body test) }
    {
        let body = Box::new(alloc, body)?;
        Ok(Stmt {
            pos: at,
            form: StmtForm::Do { body, test },
        })
    }

    /// A `for`.
    pub fn for_of(
        alloc: Global,
        at: Pos,
        start: ForStart,
        test: Option<Expr>,
        step: Option<Expr>,
        body: Stmt,
    ) -> Result<Stmt, AllocError>
        ensures { IfOk result (λ s. s ≡ For at start test step body) }
    {
        let body = Box::new(alloc, body)?;
        Ok(Stmt {
            pos: at,
            form: StmtForm::For {
                start,
                test,
                step,
                body,
            },
        })
    }

    /// An `_Enable`.
    pub fn enable(
        alloc: Global,
        at: Pos,
        events: Vec<EventName>,
        body: Stmt,
    ) -> Result<Stmt, AllocError>
        ensures { IfOk result (λ s. s ≡ Enable at events.items body) }
    {
        let body = Box::new(alloc, body)?;
        Ok(Stmt {
            pos: at,
            form: StmtForm::Enable { events, body },
        })
    }

    /// A `_Disable`.
    pub fn disable(
        alloc: Global,
        at: Pos,
        events: Vec<EventName>,
        body: Stmt,
    ) -> Result<Stmt, AllocError>
        ensures { IfOk result (λ s. s ≡ Disable at events.items body) }
    {
        let body = Box::new(alloc, body)?;
        Ok(Stmt {
            pos: at,
            form: StmtForm::Disable { events, body },
        })
    }

    /// An accept statement, with the statement of its `_Else` where it has one.
    pub fn accept(
        alloc: Global,
        at: Pos,
        clauses: Vec<Clause>,
        other: Option<Stmt>,
    ) -> Result<Stmt, AllocError>
        ensures { IfOk result (λ s. s ≡ Accept at (clauses_of clauses.items) (maybe_stmt_of other)) }
    {
        let other = maybe_boxed(alloc, other)?;
        Ok(Stmt {
            pos: at,
            form: StmtForm::Accept { clauses, other },
        })
    }
}

fn boxed(alloc: Global, s: Stmt) -> Result<Box<Stmt>, AllocError>
    ensures { IfOk result (λ b. b.value ≡ s) }
{
    let s = Box::new(alloc, s)?;
    Ok(s)
}

fn maybe_boxed(alloc: Global, s: Option<Stmt>) -> Result<Option<Box<Stmt>>, AllocError>
    ensures { IfOk result (λ b. maybe_at b ≡ maybe_stmt_of s) }
{
    match s {
        Some(s) => {
            let s = boxed(alloc, s)?;
            Ok(Some(s))
        }
        None => Ok(None),
    }
}
