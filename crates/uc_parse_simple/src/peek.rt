// What single tokens say of declarations, input and output.

ghost use Rattle.std.specs.Prelude.{◌≡◌, ◌<◌, ◌≤◌, ◌^◌, ◌↔◌, ℕ, List, IsSome, IsTrue, MatchOption, length};
ghost use Rattle.uc_grammar.specs.Form.{Spells};
ghost use Rattle.uc_grammar.specs.Grammar.{maybe_sign, inner};
ghost use Rattle.uc_grammar.specs.Spell.{kind_at, Begins};
ghost use Rattle.uc_grammar.specs.Tables.{sign_of, word_of, base_of, is_out, is_in, is_less};
ghost use Rattle.uc_parse_simple.specs.Forms.{is_name};

use uc_parse_expr::peek::{is_sign, kind_at, sign_at, word_at};
use uc_tree::kinds::Base;
use uc_tree::name::Text;
use uc_tree::token::{Sign, Token, TokenKind, Word};

fn base_of(word: Word) -> Option<Base>
    ensures { result ≡ base_of (Some word) }
{
    match word {
        Word::Void => Some(Base::Void),
        Word::Int => Some(Base::Int),
        Word::Char => Some(Base::Char),
        Word::Bool => Some(Base::Bool),
        Word::Condition => Some(Base::Condition),
        Word::Cluster => Some(Base::Cluster),
        Word::Processor => Some(Base::Processor),
        _ => None,
    }
}

/// The base that the word at a place names.
pub fn base_at(tokens: &[Token], at: u32) -> Option<Base>
    ensures base { result ≡ base_of (word_of (kind_at tokens.now at)) }
    ensures inside { IsSome result → at < length tokens.now }
{
    match word_at(tokens, at) {
        Some(word) => base_of(word),
        None => None,
    }
}

/// Whether a name stands at a place.
pub fn is_name_at(tokens: &[Token], at: u32) -> bool
    ensures begins { IsTrue result ↔ Begins is_name tokens.now at }
    ensures inside { IsTrue result → at < length tokens.now }
{
    match kind_at(tokens, at) {
        Some(TokenKind::Name(_)) => true,
        Some(_) => false,
        None => false,
    }
}

/// The text at a place.
pub fn text_at(tokens: &[Token], at: u32) -> Option<&Text>
    ensures text { MatchOption result ((t : List ℕ) →
        kind_at tokens.now at ≡ Some (TokenKind.Text t) →
        ⊥) (λ t. kind_at tokens.now at ≡ Some (TokenKind.Text t.now)) }
    ensures inside { IsSome result → at < length tokens.now }
{
    match kind_at(tokens, at) {
        Some(TokenKind::Text(text)) => Some(text),
        Some(TokenKind::Name(_)) => None,
        Some(TokenKind::Number(_)) => None,
        Some(TokenKind::Character(_)) => None,
        Some(TokenKind::Word(_)) => None,
        Some(TokenKind::Sign(_)) => None,
        None => None,
    }
}

/// Whether `<<` stands at a place.
pub fn is_out_at(tokens: &[Token], at: u32) -> bool
    ensures begins { IsTrue result ↔ Begins (λ o. is_out (sign_of o)) tokens.now at }
    ensures inside { IsTrue result → at < length tokens.now }
{
    match sign_at(tokens, at) {
        Some(Sign::ShiftLeft) => true,
        _ => false,
    }
}

/// Whether `>>` stands at a place.
pub fn is_in_at(tokens: &[Token], at: u32) -> bool
    ensures begins { IsTrue result ↔ Begins (λ o. is_in (sign_of o)) tokens.now at }
    ensures inside { IsTrue result → at < length tokens.now }
{
    match sign_at(tokens, at) {
        Some(Sign::ShiftRight) => true,
        _ => false,
    }
}

/// Whether `<` stands at a place.
pub fn is_less_at(tokens: &[Token], at: u32) -> bool
    ensures begins { IsTrue result ↔ Begins (λ o. is_less (sign_of o)) tokens.now at }
    ensures inside { IsTrue result → at < length tokens.now }
{
    match sign_at(tokens, at) {
        Some(Sign::Less) => true,
        _ => false,
    }
}

/// Whether a sign stands at a place, and the place behind it, or the same place where it does not.
pub fn skip_sign(tokens: &[Token], at: u32, sign: Sign) -> (bool, u32)
    requires begins { at ≤ length tokens.now }
    requires few { length tokens.now < 2 ^ 32 }
    ensures found { (room : ℕ) →
        Spells (inner room) (maybe_sign sign) tokens.now at result.1 result.0 }
    ensures moved { (at ≤ result.1) × (result.1 ≤ length tokens.now) }
{
    if is_sign(tokens, at, sign) {
        (true, at + 1)
    } else {
        (false, at)
    }
}
