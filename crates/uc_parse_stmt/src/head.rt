// What stands before the statements inside of a statement. It is read here, outside of the descent into those.

ghost use Rattle.std.specs.Prelude.{◌≡◌, ◌≢◌, ◌+◌, ◌<◌, ◌≤◌, ◌^◌, IfOk, IfErr, Some, length};
ghost use Rattle.uc_grammar.specs.Form.{Spells, Fails};
ghost use Rattle.uc_grammar.specs.Grammar.{if_rest, while_rest, for_rest, enable_rest, disable_rest, clause_form, handler_form, stmt_by, stmt_form, inner, faults};
ghost use Rattle.uc_grammar.specs.Spell.{kind_at, pos_at};
ghost use Rattle.uc_parse_expr.specs.Faults.{token_of};
ghost use Rattle.uc_tree.specs.Statements.{stmts_of};
ghost use Rattle.uc_parse_stmt.specs.Forms.{do_condition, do_test};
ghost use Rattle.uc_parse_stmt.specs.Heads.{begun_form, head_form, close_form, clause_rest, clause_of, taken_form, handler_rest, handler_of, else_of, is_open};
ghost use Rattle.uc_parse_stmt.specs.Leads.{Leads, LeadsOpen};
ghost use Rattle.uc_parse_stmt.specs.Parts.{bodies_of};

use crate::peek::{handler_at, start_at};
use std::alloc::Global;
use uc_grammar::fault::ParseFault;
use uc_grammar::start::StmtStart;
use uc_parse_expr::behind::{followed, kept};
use uc_parse_expr::peek::{expect_sign, expect_word, pos_at};
use uc_parse_simple::declare::{read_for_start, read_maybe_expr};
use uc_parse_simple::event::{
    Caught, read_caught, read_condition, read_events, read_guard, read_members,
};
use uc_parse_simple::plain::read_plain;
use uc_tree::declare::ForStart;
use uc_tree::expr::Expr;
use uc_tree::kinds::{EventName, HandlerKind, MemberName};
use uc_tree::pos::Pos;
use uc_tree::stmt::{Clause, Handler, Stmt};
use uc_tree::token::{Sign, Token, TokenKind, Word};

/// What stands before the statement inside of a statement.
#[derive(Drop)]
pub enum Head {
    If {
        test: Expr,
    },
    While {
        test: Expr,
    },
    Do,
    For {
        start: ForStart,
        test: Option<Expr>,
        step: Option<Expr>,
    },
    Enable {
        events: Vec<EventName>,
    },
    Disable {
        events: Vec<EventName>,
    },
}

/// The statement inside of a statement, and the second one where there is one.
#[derive(Drop)]
pub struct Bodies {
    pub body: Stmt,
    pub other: Option<Stmt>,
}

/// What stands before the statement of an accept clause.
#[derive(Drop)]
pub struct ClauseHead {
    pub pos: Pos,
    pub guard: Option<Expr>,
    pub members: Vec<MemberName>,
}

/// What stands before the statements of a handler, with the place of its `{`.
#[derive(Drop)]
pub struct HandlerHead {
    pub pos: Pos,
    pub kind: HandlerKind,
    pub caught: Caught,
    pub brace: Pos,
}

/// How a statement begins: what is read of it before the first statement inside, or the whole of it where there is none.
#[derive(Drop)]
pub enum Begun {
    Whole { s: Stmt },
    Headed { head: Head },
    Block,
    Try { brace: Pos },
    Accept { first: ClauseHead },
}

/// The levels that are left one level deeper, at the token at which something stands there.
pub fn level_below(room: u16, token: u32) -> Result<u16, ParseFault>
    ensures one_less { IfOk result (λ below. below + 1 ≡ room) }
    ensures none_left { IfErr result (λ f. (room ≡ 0) × (f ≡ ParseFault.TooDeep token)) }
{
    if room == 0 {
        return Err(ParseFault::TooDeep { token });
    }
    Ok(room - 1)
}

// What follows `if`, up to its statement.
fn read_if_head(
    alloc: Global,
    tokens: &[Token],
    pos: Pos,
    from: u32,
    room: u16,
) -> Result<(Head, u32), ParseFault>
    requires begins { from ≤ length tokens.now }
    requires few { length tokens.now < 2 ^ 32 }
    ensures leads { IfOk result (λ r. Leads room tokens.now (if_rest pos) from
        (head_form pos r.0) r.1) }
    ensures fails { IfErr result
        (λ f. Fails (inner room) (faults room) (if_rest pos) tokens.now from f) }
    ensures moved { IfOk result (λ r. (from < r.1) × (r.1 ≤ length tokens.now)) }
    ensures within { IfErr result (λ f. token_of f ≤ length tokens.now) }
{
    let (test, at) = read_condition(alloc, tokens, from, room)?;
    Ok((Head::If { test }, at))
}

// What follows `while`, up to its statement.
fn read_while_head(
    alloc: Global,
    tokens: &[Token],
    pos: Pos,
    from: u32,
    room: u16,
) -> Result<(Head, u32), ParseFault>
    requires begins { from ≤ length tokens.now }
    requires few { length tokens.now < 2 ^ 32 }
    ensures leads { IfOk result (λ r. Leads room tokens.now (while_rest pos) from
        (head_form pos r.0) r.1) }
    ensures fails { IfErr result
        (λ f. Fails (inner room) (faults room) (while_rest pos) tokens.now from f) }
    ensures moved { IfOk result (λ r. (from < r.1) × (r.1 ≤ length tokens.now)) }
    ensures within { IfErr result (λ f. token_of f ≤ length tokens.now) }
{
    let (test, at) = read_condition(alloc, tokens, from, room)?;
    Ok((Head::While { test }, at))
}

// What follows `for`, up to its statement.
fn read_for_head(
    alloc: Global,
    tokens: &[Token],
    pos: Pos,
    from: u32,
    room: u16,
) -> Result<(Head, u32), ParseFault>
    requires begins { from ≤ length tokens.now }
    requires few { length tokens.now < 2 ^ 32 }
    ensures leads { IfOk result (λ r. Leads room tokens.now (for_rest pos) from
        (head_form pos r.0) r.1) }
    ensures fails { IfErr result
        (λ f. Fails (inner room) (faults room) (for_rest pos) tokens.now from f) }
    ensures moved { IfOk result (λ r. (from < r.1) × (r.1 ≤ length tokens.now)) }
    ensures within { IfErr result (λ f. token_of f ≤ length tokens.now) }
{
    let open = expect_sign(tokens, from, Sign::OpenParen)?;
    let (start, first) = read_for_start(alloc, tokens, open, room)?;
    let (start, (test, second)) = kept(
        start,
        read_maybe_expr(alloc, tokens, Sign::Semicolon, first, room),
    )?;
    let ((start, test), (step, at)) = kept(
        (start, test),
        read_maybe_expr(alloc, tokens, Sign::CloseParen, second, room),
    )?;
    Ok((Head::For { start, test, step }, at))
}

// What follows `_Enable`, up to its statement.
fn read_enable_head(
    alloc: Global,
    tokens: &[Token],
    pos: Pos,
    from: u32,
    room: u16,
) -> Result<(Head, u32), ParseFault>
    requires begins { from ≤ length tokens.now }
    requires few { length tokens.now < 2 ^ 32 }
    ensures leads { IfOk result (λ r. Leads room tokens.now (enable_rest pos) from
        (head_form pos r.0) r.1) }
    ensures fails { IfErr result
        (λ f. Fails (inner room) (faults room) (enable_rest pos) tokens.now from f) }
    ensures moved { IfOk result (λ r. (from ≤ r.1) × (r.1 ≤ length tokens.now)) }
    ensures within { IfErr result (λ f. token_of f ≤ length tokens.now) }
{
    let (events, at) = read_events(alloc, tokens, from, room)?;
    Ok((Head::Enable { events }, at))
}

// What follows `_Disable`, up to its statement.
fn read_disable_head(
    alloc: Global,
    tokens: &[Token],
    pos: Pos,
    from: u32,
    room: u16,
) -> Result<(Head, u32), ParseFault>
    requires begins { from ≤ length tokens.now }
    requires few { length tokens.now < 2 ^ 32 }
    ensures leads { IfOk result (λ r. Leads room tokens.now (disable_rest pos) from
        (head_form pos r.0) r.1) }
    ensures fails { IfErr result
        (λ f. Fails (inner room) (faults room) (disable_rest pos) tokens.now from f) }
    ensures moved { IfOk result (λ r. (from ≤ r.1) × (r.1 ≤ length tokens.now)) }
    ensures within { IfErr result (λ f. token_of f ≤ length tokens.now) }
{
    let (events, at) = read_events(alloc, tokens, from, room)?;
    Ok((Head::Disable { events }, at))
}

/// A clause of an accept statement, up to its statement.
pub fn read_clause_head(
    alloc: Global,
    tokens: &[Token],
    from: u32,
    room: u16,
) -> Result<(ClauseHead, u32), ParseFault>
    requires begins { from ≤ length tokens.now }
    requires few { length tokens.now < 2 ^ 32 }
    ensures leads { IfOk result (λ r. Leads room tokens.now clause_form from (clause_rest r.0) r.1) }
    ensures fails { IfErr result
        (λ f. Fails (inner room) (faults room) clause_form tokens.now from f) }
    ensures moved { IfOk result (λ r. (from < r.1) × (r.1 ≤ length tokens.now)) }
    ensures within { IfErr result (λ f. token_of f ≤ length tokens.now) }
{
    let pos = pos_at(tokens, from);
    let (guard, accept) = read_guard(alloc, tokens, from, room)?;
    let (members, at) = read_members(alloc, tokens, accept, room)?;
    Ok((
        ClauseHead {
            pos,
            guard,
            members,
        },
        at,
    ))
}

/// The clause with this head and this statement.
pub fn clause_of(head: ClauseHead, body: Stmt) -> Clause
    ensures { result ≡ clause_of head body }
{
    Clause {
        pos: head.pos,
        guard: head.guard,
        members: head.members,
        body,
    }
}

// The `(` of a handler, what it takes, and its `{`.
fn read_taken(
    alloc: Global,
    tokens: &[Token],
    pos: Pos,
    kind: HandlerKind,
    from: u32,
    room: u16,
) -> Result<(HandlerHead, u32), ParseFault>
    requires begins { from ≤ length tokens.now }
    requires few { length tokens.now < 2 ^ 32 }
    ensures leads { IfOk result (λ r. Leads room tokens.now (taken_form pos kind) from
        (handler_rest r.0) r.1) }
    ensures fails { IfErr result
        (λ f. Fails (inner room) (faults room) (taken_form pos kind) tokens.now from f) }
    ensures moved { IfOk result (λ r. (from < r.1) × (r.1 ≤ length tokens.now)) }
    ensures within { IfErr result (λ f. token_of f ≤ length tokens.now) }
{
    let open = expect_sign(tokens, from, Sign::OpenParen)?;
    let (caught, end) = read_caught(alloc, tokens, open, room)?;
    let (brace, at) = read_brace(tokens, end)?;
    Ok((
        HandlerHead {
            pos,
            kind,
            caught,
            brace,
        },
        at,
    ))
}

/// A handler, up to its statements.
pub fn read_handler_head(
    alloc: Global,
    tokens: &[Token],
    from: u32,
    room: u16,
) -> Result<(HandlerHead, u32), ParseFault>
    requires begins { from ≤ length tokens.now }
    requires few { length tokens.now < 2 ^ 32 }
    ensures leads { IfOk result (λ r. Leads room tokens.now handler_form from
        (handler_rest r.0) r.1) }
    ensures fails { IfErr result
        (λ f. Fails (inner room) (faults room) handler_form tokens.now from f) }
    ensures moved { IfOk result (λ r. (from < r.1) × (r.1 ≤ length tokens.now)) }
    ensures within { IfErr result (λ f. token_of f ≤ length tokens.now) }
{
    let pos = pos_at(tokens, from);
    match handler_at(tokens, from) {
        Some(kind) => {
            let (head, at) = read_taken(alloc, tokens, pos, kind, from + 1, room)?;
            Ok((head, at))
        }
        None => Err(ParseFault::Syntax { token: from }),
    }
}

/// The handler with this head and these statements.
pub fn handler_of(head: HandlerHead, body: Vec<Stmt>) -> Handler
    ensures { result ≡ handler_of head (stmts_of body.items) }
{
    Handler {
        pos: head.pos,
        kind: head.kind,
        event: head.caught.event,
        param: head.caught.param,
        brace: head.brace,
        body,
    }
}

/// The place of a `{`, and the number of the next token.
pub fn read_brace(tokens: &[Token], from: u32) -> Result<(Pos, u32), ParseFault>
    requires begins { from ≤ length tokens.now }
    requires few { length tokens.now < 2 ^ 32 }
    ensures place { IfOk result (λ r. r.0 ≡ pos_at tokens.now from) }
    ensures found { IfOk result (λ r. (kind_at tokens.now from
        ≡ Some (TokenKind.Sign Sign.OpenBrace)) × (r.1 ≡ from + 1)) }
    ensures fails { IfErr result (λ f. (f ≡ ParseFault.Syntax from)
        × (kind_at tokens.now from ≡ Some (TokenKind.Sign Sign.OpenBrace) → ⊥)) }
    ensures moved { IfOk result (λ r. r.1 ≤ length tokens.now) }
    ensures within { IfErr result (λ f. token_of f ≤ length tokens.now) }
{
    let brace = pos_at(tokens, from);
    let at = expect_sign(tokens, from, Sign::OpenBrace)?;
    Ok((brace, at))
}

// What begins as `start` says, up to the first statement inside.
fn begin_as(
    alloc: Global,
    tokens: &[Token],
    start: StmtStart,
    pos: Pos,
    from: u32,
    room: u16,
) -> Result<(Begun, u32), ParseFault>
    requires begins { from ≤ length tokens.now }
    requires few { length tokens.now < 2 ^ 32 }
    requires begun { start ≢ StmtStart.Simple → from < length tokens.now }
    ensures leads { IfOk result (λ r. LeadsOpen (is_open r.0) room tokens.now
        (stmt_by pos start) from (begun_form pos r.0) r.1) }
    ensures fails { IfErr result
        (λ f. Fails (inner room) (faults room) (stmt_by pos start) tokens.now from f) }
    ensures moved { IfOk result (λ r. (from < r.1) × (r.1 ≤ length tokens.now)) }
    ensures within { IfErr result (λ f. token_of f ≤ length tokens.now) }
{
    match start {
        StmtStart::Block => Ok((Begun::Block, from + 1)),
        StmtStart::If => {
            let (head, at) = read_if_head(alloc, tokens, pos, from + 1, room)?;
            Ok((Begun::Headed { head }, at))
        }
        StmtStart::While => {
            let (head, at) = read_while_head(alloc, tokens, pos, from + 1, room)?;
            Ok((Begun::Headed { head }, at))
        }
        StmtStart::Do => Ok((Begun::Headed { head: Head::Do }, from + 1)),
        StmtStart::For => {
            let (head, at) = read_for_head(alloc, tokens, pos, from + 1, room)?;
            Ok((Begun::Headed { head }, at))
        }
        StmtStart::Enable => {
            let (head, at) = read_enable_head(alloc, tokens, pos, from + 1, room)?;
            Ok((Begun::Headed { head }, at))
        }
        StmtStart::Disable => {
            let (head, at) = read_disable_head(alloc, tokens, pos, from + 1, room)?;
            Ok((Begun::Headed { head }, at))
        }
        StmtStart::Try => {
            let (brace, at) = read_brace(tokens, from + 1)?;
            Ok((Begun::Try { brace }, at))
        }
        StmtStart::Accept => {
            let (first, at) = read_clause_head(alloc, tokens, from, room)?;
            Ok((Begun::Accept { first }, at))
        }
        _ => {
            let (s, to) = read_plain(alloc, tokens, start, pos, from, room)?;
            Ok((Begun::Whole { s }, to))
        }
    }
}

/// The place of a statement, what is read of it before the first statement inside, and the number of the next token.
pub fn begin(
    alloc: Global,
    tokens: &[Token],
    from: u32,
    room: u16,
) -> Result<(Pos, Begun, u32), ParseFault>
    requires begins { from ≤ length tokens.now }
    requires few { length tokens.now < 2 ^ 32 }
    ensures leads { IfOk result (λ r. LeadsOpen (is_open r.1) room tokens.now stmt_form from
        (begun_form r.0 r.1) r.2) }
    ensures fails { IfErr result
        (λ f. Fails (inner room) (faults room) stmt_form tokens.now from f) }
    ensures moved { IfOk result (λ r. (from < r.2) × (r.2 ≤ length tokens.now)) }
    ensures within { IfErr result (λ f. token_of f ≤ length tokens.now) }
{
    let pos = pos_at(tokens, from);
    let start = start_at(tokens, from);
    let (begun, at) = begin_as(alloc, tokens, start, pos, from, room)?;
    Ok((pos, begun, at))
}

/// The word before the second statement of a statement, where that may have one.
pub fn else_of(head: &Head) -> Option<Word>
    ensures { result ≡ else_of head.now }
{
    match head {
        Head::If { .. } => Some(Word::Else),
        Head::While { .. } => None,
        Head::Do => None,
        Head::For { .. } => None,
        Head::Enable { .. } => None,
        Head::Disable { .. } => None,
    }
}

// The condition of a `do`, with its `while` and `;`.
fn read_do_condition(
    alloc: Global,
    tokens: &[Token],
    from: u32,
    room: u16,
) -> Result<(Expr, u32), ParseFault>
    requires begins { from ≤ length tokens.now }
    requires few { length tokens.now < 2 ^ 32 }
    ensures found { IfOk result (λ r. Spells (inner room) do_condition tokens.now from r.1 r.0) }
    ensures fails { IfErr result
        (λ f. Fails (inner room) (faults room) do_condition tokens.now from f) }
    ensures moved { IfOk result (λ r. (from < r.1) × (r.1 ≤ length tokens.now)) }
    ensures within { IfErr result (λ f. token_of f ≤ length tokens.now) }
{
    let at = expect_word(tokens, from, Word::While)?;
    let (test, end) = read_condition(alloc, tokens, at, room)?;
    let (test, to) = followed(test, tokens, end, Sign::Semicolon)?;
    Ok((test, to))
}

// What follows the body of a `do`.
fn read_do_test(
    alloc: Global,
    tokens: &[Token],
    pos: Pos,
    body: Stmt,
    from: u32,
    room: u16,
) -> Result<(Stmt, u32), ParseFault>
    requires begins { from ≤ length tokens.now }
    requires few { length tokens.now < 2 ^ 32 }
    ensures found { IfOk result (λ r. Spells (inner room)
        (do_test pos body) tokens.now from r.1 r.0) }
    ensures fails { IfErr result
        (λ f. Fails (inner room) (faults room) (do_test pos body) tokens.now from f) }
    ensures moved { IfOk result (λ r. (from ≤ r.1) × (r.1 ≤ length tokens.now)) }
    ensures within { IfErr result (λ f. token_of f ≤ length tokens.now) }
{
    let (body, (test, to)) = kept(body, read_do_condition(alloc, tokens, from, room))?;
    let s = Stmt::do_of(alloc, pos, body, test)?;
    Ok((s, to))
}

/// The statement with this head and these statements inside, and what of it stands behind them.
pub fn read_close(
    alloc: Global,
    tokens: &[Token],
    pos: Pos,
    head: Head,
    bodies: Bodies,
    from: u32,
    room: u16,
) -> Result<(Stmt, u32), ParseFault>
    requires begins { from ≤ length tokens.now }
    requires few { length tokens.now < 2 ^ 32 }
    ensures found { IfOk result (λ r. Spells (inner room)
        (close_form pos head (bodies_of bodies).0 (bodies_of bodies).1) tokens.now from r.1 r.0) }
    ensures fails { IfErr result
        (λ f. Fails (inner room) (faults room)
        (close_form pos head (bodies_of bodies).0 (bodies_of bodies).1) tokens.now from f) }
    ensures moved { IfOk result (λ r. (from ≤ r.1) × (r.1 ≤ length tokens.now)) }
    ensures within { IfErr result (λ f. token_of f ≤ length tokens.now) }
{
    let Bodies { body, other } = bodies;
    match head {
        Head::If { test } => {
            let s = Stmt::if_of(alloc, pos, test, body, other)?;
            Ok((s, from))
        }
        Head::While { test } => {
            let s = Stmt::while_of(alloc, pos, test, body)?;
            Ok((s, from))
        }
        Head::Do => {
            let (s, to) = read_do_test(alloc, tokens, pos, body, from, room)?;
            Ok((s, to))
        }
        Head::For { start, test, step } => {
            let s = Stmt::for_of(alloc, pos, start, test, step, body)?;
            Ok((s, from))
        }
        Head::Enable { events } => {
            let s = Stmt::enable(alloc, pos, events, body)?;
            Ok((s, from))
        }
        Head::Disable { events } => {
            let s = Stmt::disable(alloc, pos, events, body)?;
            Ok((s, from))
        }
    }
}
