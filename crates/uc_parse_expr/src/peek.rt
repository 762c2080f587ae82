// What single tokens are. A place behind the last token has no token.

ghost use Rattle.std.specs.Prelude.{◌≡◌, ◌≢◌, ◌+◌, ◌<◌, ◌≤◌, ◌^◌, ◌↔◌, ℕ, true, false, IfOk, IfErr, IsSome, IsTrue, MatchOption, length};
ghost use Rattle.uc_grammar.specs.Spell.{kind_at, pos_at};
ghost use Rattle.uc_grammar.specs.Form.{Spells, Fails};
ghost use Rattle.uc_grammar.specs.Grammar.{name_form, inner, faults};
ghost use Rattle.uc_grammar.specs.Tables.{sign_of, word_of};
ghost use Rattle.uc_parse_expr.specs.Faults.{token_of};

use std::alloc::Global;
use uc_grammar::fault::ParseFault;
use uc_tree::name::Name;
use uc_tree::pos::Pos;
use uc_tree::token::{Sign, Token, TokenKind, Word};

/// What the token at a place is.
pub fn kind_at(tokens: &[Token], at: u32) -> Option<&TokenKind>
    ensures kind { MatchOption result (kind_at tokens.now at ≡ None) (λ k. kind_at tokens.now at
        ≡ Some k.now) }
    ensures inside { IsSome result → at < length tokens.now }
{
    match tokens.get(at as usize) {
        Some(token) => Some(&token.kind),
        None => None,
    }
}

/// The place of the token in the text, or line 0 and column 0.
pub fn pos_at(tokens: &[Token], at: u32) -> Pos
    ensures { result ≡ pos_at tokens.now at }
{
    match tokens.get(at as usize) {
        Some(token) => token.pos,
        None => Pos { line: 0, col: 0 },
    }
}

/// The sign at a place.
pub fn sign_at(tokens: &[Token], at: u32) -> Option<Sign>
    ensures sign { result ≡ sign_of (kind_at tokens.now at) }
    ensures inside { IsSome result → at < length tokens.now }
{
    match tokens.get(at as usize) {
        Some(token) => match &token.kind {
            TokenKind::Sign(sign) => Some(*sign),
            TokenKind::Name(_) => None,
            TokenKind::Number(_) => None,
            TokenKind::Character(_) => None,
            TokenKind::Text(_) => None,
            TokenKind::Word(_) => None,
        },
        None => None,
    }
}

/// The word at a place.
pub fn word_at(tokens: &[Token], at: u32) -> Option<Word>
    ensures word { result ≡ word_of (kind_at tokens.now at) }
    ensures inside { IsSome result → at < length tokens.now }
{
    match tokens.get(at as usize) {
        Some(token) => match &token.kind {
            TokenKind::Word(word) => Some(*word),
            TokenKind::Name(_) => None,
            TokenKind::Number(_) => None,
            TokenKind::Character(_) => None,
            TokenKind::Text(_) => None,
            TokenKind::Sign(_) => None,
        },
        None => None,
    }
}

/// Whether the token at a place is this sign.
#[tactic(auto, using(crate::proofs::Tokens::sign_there, crate::proofs::Tokens::there_sign))]
pub fn is_sign(tokens: &[Token], at: u32, sign: Sign) -> bool
    ensures sign { IsTrue result ↔ (kind_at tokens.now at ≡ Some (TokenKind.Sign sign)) }
    ensures inside { IsTrue result → at < length tokens.now }
{
    match sign_at(tokens, at) {
        Some(there) => there == sign,
        None => false,
    }
}

// Whether two words are the same.
fn same_word(a: Word, b: Word) -> bool
    ensures same { result ≡ true → a ≡ b }
    ensures other { result ≡ false → a ≢ b }
{
    a as u8 == b as u8
}

/// Whether the token at a place is this word.
#[tactic(auto, using(crate::proofs::Tokens::word_there, crate::proofs::Tokens::there_word))]
pub fn is_word(tokens: &[Token], at: u32, word: Word) -> bool
    ensures word { IsTrue result ↔ (kind_at tokens.now at ≡ Some (TokenKind.Word word)) }
    ensures inside { IsTrue result → at < length tokens.now }
{
    match word_at(tokens, at) {
        Some(there) => same_word(there, word),
        None => false,
    }
}

/// The place behind this sign, which must stand at `at`.
pub fn expect_sign(tokens: &[Token], at: u32, sign: Sign) -> Result<u32, ParseFault>
    requires begins { at ≤ length tokens.now }
    requires few { length tokens.now < 2 ^ 32 }
    ensures found { IfOk result (λ to. (kind_at tokens.now at ≡ Some (TokenKind.Sign sign))
        × (to ≡ at + 1)) }
    ensures fails { IfErr result (λ f. (f ≡ ParseFault.Syntax at)
        × (kind_at tokens.now at ≡ Some (TokenKind.Sign sign) → ⊥)) }
    ensures moved { IfOk result (λ to. to ≤ length tokens.now) }
    ensures within { IfErr result (λ f. token_of f ≤ length tokens.now) }
{
    if is_sign(tokens, at, sign) {
        Ok(at + 1)
    } else {
        Err(ParseFault::Syntax { token: at })
    }
}

/// The place behind this word, which must stand at `at`.
pub fn expect_word(tokens: &[Token], at: u32, word: Word) -> Result<u32, ParseFault>
    requires begins { at ≤ length tokens.now }
    requires few { length tokens.now < 2 ^ 32 }
    ensures found { IfOk result (λ to. (kind_at tokens.now at ≡ Some (TokenKind.Word word))
        × (to ≡ at + 1)) }
    ensures fails { IfErr result (λ f. (f ≡ ParseFault.Syntax at)
        × (kind_at tokens.now at ≡ Some (TokenKind.Word word) → ⊥)) }
    ensures moved { IfOk result (λ to. to ≤ length tokens.now) }
    ensures within { IfErr result (λ f. token_of f ≤ length tokens.now) }
{
    if is_word(tokens, at, word) {
        Ok(at + 1)
    } else {
        Err(ParseFault::Syntax { token: at })
    }
}

/// A copy of the name that must stand at `at`, and the place behind it.
pub fn read_name(alloc: Global, tokens: &[Token], at: u32) -> Result<(Name, u32), ParseFault>
    requires begins { at ≤ length tokens.now }
    requires few { length tokens.now < 2 ^ 32 }
    ensures found { IfOk result (λ r. (room : ℕ) →
        Spells (inner room) name_form tokens.now at r.1 r.0) }
    ensures fails { IfErr result (λ f. (room : ℕ) →
        Fails (inner room) (faults room) name_form tokens.now at f) }
    ensures moved { IfOk result (λ r. (r.1 ≡ at + 1) × (r.1 ≤ length tokens.now)) }
    ensures within { IfErr result (λ f. token_of f ≤ length tokens.now) }
{
    match kind_at(tokens, at) {
        Some(TokenKind::Name(name)) => {
            let copy = name.copy(alloc)?;
            Ok((copy, at + 1))
        }
        Some(TokenKind::Number(_)) => Err(ParseFault::Syntax { token: at }),
        Some(TokenKind::Character(_)) => Err(ParseFault::Syntax { token: at }),
        Some(TokenKind::Text(_)) => Err(ParseFault::Syntax { token: at }),
        Some(TokenKind::Word(_)) => Err(ParseFault::Syntax { token: at }),
        Some(TokenKind::Sign(_)) => Err(ParseFault::Syntax { token: at }),
        None => Err(ParseFault::Syntax { token: at }),
    }
}
