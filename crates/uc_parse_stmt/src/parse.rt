// The parser of statements: a descent that looks at one token.
//
// Each `read_` function reads one form of the grammar from a token on. `room` is how many further levels may be nested in
// it. It answers what the tokens spell and the number of the next token, or how a reading fails.

ghost use Rattle.std.specs.Prelude.{◌≡◌, ◌+◌, ◌<◌, ◌≤◌, ◌^◌, IfOk, IfErr, IsTrue, Some, None, length};
ghost use Rattle.uc_grammar.specs.Form.{Spells, Fails, inside};
ghost use Rattle.uc_parse_expr.specs.Faults.{token_of};
ghost use Rattle.uc_grammar.specs.Names.{stmt_name};
ghost use Rattle.uc_grammar.specs.Grammar.{block_rest, block_form, stmt_form, inner, faults};
ghost use Rattle.std.specs.Prelude.{◌-◌, ◌*◌, ℕ};
ghost use Rattle.uc_grammar.specs.Text.{IsStmt, StmtFails};
ghost use Rattle.uc_parse_stmt.specs.Found.{OnlyStmt, NeverStmt, NoneHere, FirstTooDeep};
ghost use Rattle.uc_parse_stmt.specs.Forms.{stmts_form};
ghost use Rattle.uc_parse_stmt.specs.Heads.{accept_rest, begun_form, bodies_form, clauses_rest, handlers_rest, head_form, is_open, maybe_by, try_form};
ghost use Rattle.uc_parse_stmt.specs.Parts.{bodies_of, body_of};
ghost use Rattle.uc_tree.specs.Statements.{maybe_stmt_of, stmts_of};

use crate::head::{
    Begun, Bodies, ClauseHead, HandlerHead, Head, begin, clause_of, else_of, handler_of,
    level_below, read_brace, read_clause_head, read_close, read_handler_head,
};
use crate::peek::{in_braces_at, is_handler_at, is_maybe_word, is_or_at};
use std::alloc::Global;
use uc_grammar::fault::ParseFault;
use uc_parse_expr::behind::{followed, kept};
use uc_tree::limits::NESTING;
use uc_tree::pos::Pos;
use uc_tree::stmt::{Clause, Handler, Stmt, StmtForm};
use uc_tree::token::{Sign, Token, Word};

/// A block, with the place of its `{`.
#[derive(Drop)]
pub struct Body {
    pub brace: Pos,
    pub body: Vec<Stmt>,
}

/// The statement at token `from`, which stands inside `depth` levels and is one more, and the number of the next token.
pub fn parse_stmt(
    alloc: Global,
    tokens: &[Token],
    from: u32,
    depth: u16,
) -> Result<(Stmt, u32), ParseFault>
    requires begins { from ≤ length tokens.now }
    requires few { length tokens.now < 2 ^ 32 }
    requires shallow { depth ≤ NESTING }
    ensures found { IfOk result (λ r. IsStmt (NESTING - depth) tokens.now from r.1 r.0) }
    ensures only { IfOk result (λ r. OnlyStmt tokens.now from r.1 r.0) }
    ensures moved { IfOk result (λ r. (from < r.1) × (r.1 ≤ length tokens.now)) }
    ensures fails { IfErr result (λ f. StmtFails (NESTING - depth) tokens.now from f) }
    ensures none { IfErr result (λ f. (f ≡ ParseFault.NoMemory → ⊥) →
        NoneHere (NESTING - depth) tokens.now from) }
    ensures syntax { IfErr result (λ f. (p : ℕ) → f ≡ ParseFault.Syntax p →
        NeverStmt tokens.now p from) }
    ensures deep { IfErr result (λ f. (k : ℕ) → f ≡ ParseFault.TooDeep k →
        NESTING ≤ depth + 2 * (k - from) + 1) }
    ensures first { IfErr result (λ f. (k : ℕ) → f ≡ ParseFault.TooDeep k →
        FirstTooDeep (NESTING - depth) tokens.now from k) }
    ensures within { IfErr result (λ f. token_of f ≤ length tokens.now) }
{
    let (s, to) = read_inner_stmt(alloc, tokens, from, NESTING - depth)?;
    Ok((s, to))
}

/// A statement that stands one level deeper.
#[cycle(stmt)]
pub fn read_inner_stmt(
    alloc: Global,
    tokens: &[Token],
    from: u32,
    room: u16,
) -> Result<(Stmt, u32), ParseFault>
    requires begins { from ≤ length tokens.now }
    requires few { length tokens.now < 2 ^ 32 }
    ensures found { IfOk result (λ r. Spells (inner room)
        (inside stmt_name) tokens.now from r.1 r.0) }
    ensures fails { IfErr result
        (λ f. Fails (inner room) (faults room) (inside stmt_name) tokens.now from f) }
    ensures moved { IfOk result (λ r. (from < r.1) × (r.1 ≤ length tokens.now)) }
    ensures within { IfErr result (λ f. token_of f ≤ length tokens.now) }
{
    let below = level_below(room, from)?;
    let (s, to) = read_stmt(alloc, tokens, from, below)?;
    Ok((s, to))
}

/// A statement.
#[cycle(stmt)]
pub fn read_stmt(
    alloc: Global,
    tokens: &[Token],
    from: u32,
    room: u16,
) -> Result<(Stmt, u32), ParseFault>
    requires begins { from ≤ length tokens.now }
    requires few { length tokens.now < 2 ^ 32 }
    ensures found { IfOk result (λ r. Spells (inner room) stmt_form tokens.now from r.1 r.0) }
    ensures fails { IfErr result
        (λ f. Fails (inner room) (faults room) stmt_form tokens.now from f) }
    ensures moved { IfOk result (λ r. (from < r.1) × (r.1 ≤ length tokens.now)) }
    ensures within { IfErr result (λ f. token_of f ≤ length tokens.now) }
{
    let (pos, begun, at) = begin(alloc, tokens, from, room)?;
    let (s, to) = read_begun(alloc, tokens, pos, begun, at, room)?;
    Ok((s, to))
}

// What follows what is read of a statement before the first statement inside.
#[cycle(stmt)]
fn read_begun(
    alloc: Global,
    tokens: &[Token],
    pos: Pos,
    begun: Begun,
    from: u32,
    room: u16,
) -> Result<(Stmt, u32), ParseFault>
    requires begins { from ≤ length tokens.now }
    requires few { length tokens.now < 2 ^ 32 }
    ensures found { IfOk result (λ r. Spells (inner room)
        (begun_form pos begun) tokens.now from r.1 r.0) }
    ensures fails { IfErr result
        (λ f. Fails (inner room) (faults room) (begun_form pos begun) tokens.now from f) }
    ensures moved { IfOk result (λ r. (from ≤ r.1) × (r.1 ≤ length tokens.now)) }
    ensures within { IfErr result (λ f. token_of f ≤ length tokens.now) }
    ensures open { IfErr result (λ f. IsTrue (is_open begun)) }
{
    match begun {
        Begun::Whole { s } => Ok((s, from)),
        Begun::Headed { head } => {
            let (s, to) = read_headed(alloc, tokens, pos, head, from, room)?;
            Ok((s, to))
        }
        Begun::Block => {
            let (body, to) = read_block_rest(alloc, tokens, from, room)?;
            let form = StmtForm::Block { body };
            Ok((Stmt { pos, form }, to))
        }
        Begun::Try { brace } => {
            let (s, to) = read_try(alloc, tokens, pos, brace, from, room)?;
            Ok((s, to))
        }
        Begun::Accept { first } => {
            let (s, to) = read_accept(alloc, tokens, pos, first, from, room)?;
            Ok((s, to))
        }
    }
}

// What follows the head of a statement.
#[cycle(stmt)]
fn read_headed(
    alloc: Global,
    tokens: &[Token],
    pos: Pos,
    head: Head,
    from: u32,
    room: u16,
) -> Result<(Stmt, u32), ParseFault>
    requires begins { from ≤ length tokens.now }
    requires few { length tokens.now < 2 ^ 32 }
    ensures found { IfOk result (λ r. Spells (inner room)
        (head_form pos head) tokens.now from r.1 r.0) }
    ensures fails { IfErr result
        (λ f. Fails (inner room) (faults room) (head_form pos head) tokens.now from f) }
    ensures moved { IfOk result (λ r. (from ≤ r.1) × (r.1 ≤ length tokens.now)) }
    ensures within { IfErr result (λ f. token_of f ≤ length tokens.now) }
{
    let word = else_of(&head);
    let (head, (bodies, at)) = kept(head, read_bodies(alloc, tokens, word, from, room))?;
    let (s, to) = read_close(alloc, tokens, pos, head, bodies, at, room)?;
    Ok((s, to))
}

// The statement inside of a statement, and the one behind this word, if it is one and stands there.
#[cycle(stmt)]
fn read_bodies(
    alloc: Global,
    tokens: &[Token],
    word: Option<Word>,
    from: u32,
    room: u16,
) -> Result<(Bodies, u32), ParseFault>
    requires begins { from ≤ length tokens.now }
    requires few { length tokens.now < 2 ^ 32 }
    ensures found { IfOk result (λ r. Spells (inner room) (bodies_form word) tokens.now from r.1
        (bodies_of r.0)) }
    ensures fails { IfErr result
        (λ f. Fails (inner room) (faults room) (bodies_form word) tokens.now from f) }
    ensures moved { IfOk result (λ r. (from < r.1) × (r.1 ≤ length tokens.now)) }
    ensures within { IfErr result (λ f. token_of f ≤ length tokens.now) }
{
    let (body, at) = read_inner_stmt(alloc, tokens, from, room)?;
    let (body, (other, end)) = kept(body, read_maybe_stmt(alloc, tokens, word, at, room))?;
    Ok((Bodies { body, other }, end))
}

// A statement behind a word, or none where the word does not stand.
#[cycle(stmt)]
fn read_maybe_stmt(
    alloc: Global,
    tokens: &[Token],
    word: Option<Word>,
    from: u32,
    room: u16,
) -> Result<(Option<Stmt>, u32), ParseFault>
    requires begins { from ≤ length tokens.now }
    requires few { length tokens.now < 2 ^ 32 }
    ensures found { IfOk result (λ r. Spells (inner room) (maybe_by word) tokens.now from r.1
        (maybe_stmt_of r.0)) }
    ensures fails { IfErr result
        (λ f. Fails (inner room) (faults room) (maybe_by word) tokens.now from f) }
    ensures moved { IfOk result (λ r. (from ≤ r.1) × (r.1 ≤ length tokens.now)) }
    ensures within { IfErr result (λ f. token_of f ≤ length tokens.now) }
{
    if !is_maybe_word(tokens, from, word) {
        return Ok((None, from));
    }
    let (s, to) = read_inner_stmt(alloc, tokens, from + 1, room)?;
    Ok((Some(s), to))
}

// Statements up to a `}`. Each stands two levels deeper.
#[cycle(stmt)]
fn read_stmts(
    alloc: Global,
    tokens: &[Token],
    from: u32,
    room: u16,
) -> Result<(Vec<Stmt>, u32), ParseFault>
    requires begins { from ≤ length tokens.now }
    requires few { length tokens.now < 2 ^ 32 }
    ensures found { IfOk result (λ r. Spells (inner room) stmts_form tokens.now from r.1 r.0.items) }
    ensures fails { IfErr result
        (λ f. Fails (inner room) (faults room) stmts_form tokens.now from f) }
    ensures moved { IfOk result (λ r. (from ≤ r.1) × (r.1 ≤ length tokens.now)) }
    ensures within { IfErr result (λ f. token_of f ≤ length tokens.now) }
{
    let mut all = Vec::new(alloc);
    let mut at = from;
    'items: while in_braces_at(tokens, at) {
        let below = level_below(room, at)?;
        let (next, end) = read_inner_stmt(alloc, tokens, at, below)?;
        all.push(next)?;
        at = end;
    }
    Ok((all, at))
}

/// What follows the `{` of a block.
#[cycle(stmt)]
pub fn read_block_rest(
    alloc: Global,
    tokens: &[Token],
    from: u32,
    room: u16,
) -> Result<(Vec<Stmt>, u32), ParseFault>
    requires begins { from ≤ length tokens.now }
    requires few { length tokens.now < 2 ^ 32 }
    ensures found { IfOk result (λ r. Spells (inner room) block_rest tokens.now from r.1
        (stmts_of r.0.items)) }
    ensures fails { IfErr result
        (λ f. Fails (inner room) (faults room) block_rest tokens.now from f) }
    ensures moved { IfOk result (λ r. (from < r.1) × (r.1 ≤ length tokens.now)) }
    ensures within { IfErr result (λ f. token_of f ≤ length tokens.now) }
{
    let (all, at) = read_stmts(alloc, tokens, from, room)?;
    let (all, to) = followed(all, tokens, at, Sign::CloseBrace)?;
    Ok((all, to))
}

// What follows the head of the first handler: its statements, and further handlers.
#[cycle(stmt)]
fn read_handlers(
    alloc: Global,
    tokens: &[Token],
    first: HandlerHead,
    from: u32,
    room: u16,
) -> Result<(Vec<Handler>, u32), ParseFault>
    requires begins { from ≤ length tokens.now }
    requires few { length tokens.now < 2 ^ 32 }
    ensures found { IfOk result (λ r. Spells (inner room)
        (handlers_rest first) tokens.now from r.1 r.0.items) }
    ensures fails { IfErr result
        (λ f. Fails (inner room) (faults room) (handlers_rest first) tokens.now from f) }
    ensures moved { IfOk result (λ r. (from < r.1) × (r.1 ≤ length tokens.now)) }
    ensures within { IfErr result (λ f. token_of f ≤ length tokens.now) }
{
    let (first, (body, end)) = kept(first, read_block_rest(alloc, tokens, from, room))?;
    let mut all = Vec::new(alloc);
    all.push(handler_of(first, body))?;
    let mut at = end;
    'items: while is_handler_at(tokens, at) {
        let (head, open) = read_handler_head(alloc, tokens, at, room)?;
        let (head, (body, end)) = kept(head, read_block_rest(alloc, tokens, open, room))?;
        all.push(handler_of(head, body))?;
        at = end;
    }
    Ok((all, at))
}

// What follows the `{` of a `try` statement.
#[cycle(stmt)]
fn read_try(
    alloc: Global,
    tokens: &[Token],
    pos: Pos,
    brace: Pos,
    from: u32,
    room: u16,
) -> Result<(Stmt, u32), ParseFault>
    requires begins { from ≤ length tokens.now }
    requires few { length tokens.now < 2 ^ 32 }
    ensures found { IfOk result (λ r. Spells (inner room)
        (try_form pos brace) tokens.now from r.1 r.0) }
    ensures fails { IfErr result
        (λ f. Fails (inner room) (faults room) (try_form pos brace) tokens.now from f) }
    ensures moved { IfOk result (λ r. (from < r.1) × (r.1 ≤ length tokens.now)) }
    ensures within { IfErr result (λ f. token_of f ≤ length tokens.now) }
{
    let (body, end) = read_block_rest(alloc, tokens, from, room)?;
    let (body, (first, at)) = kept(body, read_handler_head(alloc, tokens, end, room))?;
    let (body, (handlers, to)) = kept(body, read_handlers(alloc, tokens, first, at, room))?;
    let form = StmtForm::Try {
        brace,
        body,
        handlers,
    };
    Ok((Stmt { pos, form }, to))
}

// What follows the head of the first clause: its statement, and further clauses.
#[cycle(stmt)]
fn read_clauses(
    alloc: Global,
    tokens: &[Token],
    first: ClauseHead,
    from: u32,
    room: u16,
) -> Result<(Vec<Clause>, u32), ParseFault>
    requires begins { from ≤ length tokens.now }
    requires few { length tokens.now < 2 ^ 32 }
    ensures found { IfOk result (λ r. Spells (inner room)
        (clauses_rest first) tokens.now from r.1 r.0.items) }
    ensures fails { IfErr result
        (λ f. Fails (inner room) (faults room) (clauses_rest first) tokens.now from f) }
    ensures moved { IfOk result (λ r. (from < r.1) × (r.1 ≤ length tokens.now)) }
    ensures within { IfErr result (λ f. token_of f ≤ length tokens.now) }
{
    let (first, (body, end)) = kept(first, read_inner_stmt(alloc, tokens, from, room))?;
    let mut all = Vec::new(alloc);
    all.push(clause_of(first, body))?;
    let mut at = end;
    'items: while is_or_at(tokens, at) {
        let (head, open) = read_clause_head(alloc, tokens, at + 1, room)?;
        let (head, (body, end)) = kept(head, read_inner_stmt(alloc, tokens, open, room))?;
        all.push(clause_of(head, body))?;
        at = end;
    }
    Ok((all, at))
}

// What follows the head of the first clause of an accept statement.
#[cycle(stmt)]
fn read_accept(
    alloc: Global,
    tokens: &[Token],
    pos: Pos,
    first: ClauseHead,
    from: u32,
    room: u16,
) -> Result<(Stmt, u32), ParseFault>
    requires begins { from ≤ length tokens.now }
    requires few { length tokens.now < 2 ^ 32 }
    ensures found { IfOk result (λ r. Spells (inner room)
        (accept_rest pos first) tokens.now from r.1 r.0) }
    ensures fails { IfErr result
        (λ f. Fails (inner room) (faults room) (accept_rest pos first) tokens.now from f) }
    ensures moved { IfOk result (λ r. (from < r.1) × (r.1 ≤ length tokens.now)) }
    ensures within { IfErr result (λ f. token_of f ≤ length tokens.now) }
{
    let (clauses, at) = read_clauses(alloc, tokens, first, from, room)?;
    let (clauses, (other, to)) = kept(
        clauses,
        read_maybe_stmt(alloc, tokens, Some(Word::AcceptElse), at, room),
    )?;
    let s = Stmt::accept(alloc, pos, clauses, other)?;
    Ok((s, to))
}

/// A block.
pub fn read_block(
    alloc: Global,
    tokens: &[Token],
    from: u32,
    room: u16,
) -> Result<(Body, u32), ParseFault>
    requires begins { from ≤ length tokens.now }
    requires few { length tokens.now < 2 ^ 32 }
    ensures found { IfOk result (λ r. Spells (inner room) block_form tokens.now from r.1
        (body_of r.0)) }
    ensures fails { IfErr result
        (λ f. Fails (inner room) (faults room) block_form tokens.now from f) }
    ensures moved { IfOk result (λ r. (from < r.1) × (r.1 ≤ length tokens.now)) }
    ensures within { IfErr result (λ f. token_of f ≤ length tokens.now) }
{
    let (brace, at) = read_brace(tokens, from)?;
    let (body, to) = read_block_rest(alloc, tokens, at, room)?;
    Ok((Body { brace, body }, to))
}
