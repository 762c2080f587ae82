// What signs are in an expression.

ghost use Rattle.std.specs.Prelude.{◌≡◌, ◌+◌, ◌<◌, ◌↔◌, IfSome, IsSome, IsTrue, length};
ghost use Rattle.uc_grammar.specs.Spell.{kind_at, Begins};
ghost use Rattle.uc_grammar.specs.Tables.{sign_of, unary_of, binary_of, assign_of, is_part, is_comma, is_binary};
ghost use Rattle.uc_parse_expr.specs.Levels.{tighter_of, rank};
ghost use Rattle.uc_parse_expr.specs.Starts.{part_start_of};

use crate::peek::{is_sign, sign_at};
use uc_grammar::level::Level;
use uc_tree::ops::{AssignOp, BinaryOp, StepOp, UnaryOp};
use uc_tree::token::{Sign, Token};

/// What the sign of a part behind a root says of it.
#[derive(Clone, Copy)]
pub enum PartStart {
    Field,
    Index,
    Call,
    Step(StepOp),
}

/// The level whose chains are the operands of this one.
pub fn tighter(level: Level) -> Option<Level>
    ensures level { result ≡ tighter_of level }
    ensures lower { IfSome result (λ t. rank t + 1 ≡ rank level) }
{
    match level {
        Level::Product => None,
        Level::Sum => Some(Level::Product),
        Level::Comparison => Some(Level::Sum),
        Level::Equality => Some(Level::Comparison),
        Level::And => Some(Level::Equality),
        Level::Or => Some(Level::And),
    }
}

fn unary_of(sign: Sign) -> Option<UnaryOp>
    ensures { result ≡ unary_of (Some sign) }
{
    match sign {
        Sign::Minus => Some(UnaryOp::Minus),
        Sign::Plus => Some(UnaryOp::Plus),
        Sign::Not => Some(UnaryOp::Not),
        Sign::Increment => Some(UnaryOp::Increment),
        Sign::Decrement => Some(UnaryOp::Decrement),
        _ => None,
    }
}

fn binary_of(level: Level, sign: Sign) -> Option<BinaryOp>
    ensures { result ≡ binary_of level (Some sign) }
{
    match (level, sign) {
        (Level::Product, Sign::Star) => Some(BinaryOp::Mul),
        (Level::Product, Sign::Slash) => Some(BinaryOp::Div),
        (Level::Product, Sign::Percent) => Some(BinaryOp::Rem),
        (Level::Sum, Sign::Plus) => Some(BinaryOp::Add),
        (Level::Sum, Sign::Minus) => Some(BinaryOp::Sub),
        (Level::Comparison, Sign::Less) => Some(BinaryOp::Less),
        (Level::Comparison, Sign::LessEqual) => Some(BinaryOp::LessEqual),
        (Level::Comparison, Sign::Greater) => Some(BinaryOp::Greater),
        (Level::Comparison, Sign::GreaterEqual) => Some(BinaryOp::GreaterEqual),
        (Level::Equality, Sign::Equal) => Some(BinaryOp::Equal),
        (Level::Equality, Sign::NotEqual) => Some(BinaryOp::NotEqual),
        (Level::And, Sign::AndAnd) => Some(BinaryOp::And),
        (Level::Or, Sign::OrOr) => Some(BinaryOp::Or),
        _ => None,
    }
}

fn assign_of(sign: Sign) -> Option<AssignOp>
    ensures { result ≡ assign_of (Some sign) }
{
    match sign {
        Sign::Assign => Some(AssignOp::Set),
        Sign::AddAssign => Some(AssignOp::Add),
        Sign::SubAssign => Some(AssignOp::Sub),
        Sign::MulAssign => Some(AssignOp::Mul),
        Sign::DivAssign => Some(AssignOp::Div),
        Sign::RemAssign => Some(AssignOp::Rem),
        _ => None,
    }
}

fn part_start_of(sign: Sign) -> Option<PartStart>
    ensures { result ≡ part_start_of (Some sign) }
{
    match sign {
        Sign::Dot => Some(PartStart::Field),
        Sign::OpenBracket => Some(PartStart::Index),
        Sign::OpenParen => Some(PartStart::Call),
        Sign::Increment => Some(PartStart::Step(StepOp::Increment)),
        Sign::Decrement => Some(PartStart::Step(StepOp::Decrement)),
        _ => None,
    }
}

/// The operator before an operand that the sign at a place is.
pub fn unary_at(tokens: &[Token], at: u32) -> Option<UnaryOp>
    ensures op { result ≡ unary_of (sign_of (kind_at tokens.now at)) }
    ensures inside { IsSome result → at < length tokens.now }
{
    match sign_at(tokens, at) {
        Some(sign) => unary_of(sign),
        None => None,
    }
}

/// The operator of a level that the sign at a place is.
pub fn binary_at(tokens: &[Token], at: u32, level: Level) -> Option<BinaryOp>
    ensures op { result ≡ binary_of level (sign_of (kind_at tokens.now at)) }
    ensures inside { IsSome result → at < length tokens.now }
{
    match sign_at(tokens, at) {
        Some(sign) => binary_of(level, sign),
        None => None,
    }
}

/// Whether the sign at a place is an operator of the level.
pub fn is_binary_at(tokens: &[Token], at: u32, level: Level) -> bool
    ensures begins { IsTrue result ↔ Begins (λ o. is_binary level (sign_of o)) tokens.now at }
    ensures inside { IsTrue result → at < length tokens.now }
{
    binary_at(tokens, at, level).is_some()
}

/// The operator of an assignment that the sign at a place is.
pub fn assign_at(tokens: &[Token], at: u32) -> Option<AssignOp>
    ensures op { result ≡ assign_of (sign_of (kind_at tokens.now at)) }
    ensures inside { IsSome result → at < length tokens.now }
{
    match sign_at(tokens, at) {
        Some(sign) => assign_of(sign),
        None => None,
    }
}

/// What the sign at a place says of a part that begins with it.
pub fn part_start_at(tokens: &[Token], at: u32) -> Option<PartStart>
    ensures start { result ≡ part_start_of (sign_of (kind_at tokens.now at)) }
    ensures inside { IsSome result → at < length tokens.now }
{
    match sign_at(tokens, at) {
        Some(sign) => part_start_of(sign),
        None => None,
    }
}

/// Whether a part begins with the sign at a place.
#[tactic(auto, using(crate::proofs::Tokens::is_part_start))]
pub fn is_part_at(tokens: &[Token], at: u32) -> bool
    ensures begins { IsTrue result ↔ Begins (λ o. is_part (sign_of o)) tokens.now at }
    ensures inside { IsTrue result → at < length tokens.now }
{
    part_start_at(tokens, at).is_some()
}

/// Whether a comma stands at a place.
pub fn is_comma_at(tokens: &[Token], at: u32) -> bool
    ensures begins { IsTrue result ↔ Begins (λ o. is_comma (sign_of o)) tokens.now at }
    ensures inside { IsTrue result → at < length tokens.now }
{
    match sign_at(tokens, at) {
        Some(sign) => sign == Sign::Comma,
        None => false,
    }
}
