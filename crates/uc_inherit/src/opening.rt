// The pass over the tokens of a text that takes out bases and `virtual`.

ghost use Rattle.std.specs.Prelude.{◌≡◌, ◌<◌, ◌^◌, IfOk, length};
ghost use Rattle.uc_inherit.specs.OpenedTokens as opened;

use crate::head::{base_name, first_place, is_in_base};
use crate::peek::is_virtual_at;
use std::alloc::{AllocError, Global};
use uc_parse_expr::peek::pos_at;
use uc_tree::name::Name;
use uc_tree::pos::Pos;
use uc_tree::token::{Token, TokenKind};

/// What was taken out of the tokens of a text.
#[derive(Drop)]
pub struct Heads {
    /// Of each class with a base the place of its first token, and the name of its base.
    pub bases: Vec<(Pos, Name)>,
    /// The place of the token after each `virtual`, or that of the `virtual` itself where no token follows.
    pub virtuals: Vec<Pos>,
}

/// The tokens without the `: public name` of each class head and without each `virtual`, and what was taken out. Both
/// keep the order of the text.
pub fn open_classes(alloc: Global, tokens: &[Token]) -> Result<(Vec<Token>, Heads), AllocError>
    requires few { length tokens.now < 2 ^ 32 }
    ensures tokens { IfOk result (λ r. r.0.items ≡ opened.tokens_left tokens.now) }
    ensures bases { IfOk result (λ r. r.1.bases.items ≡ opened.bases tokens.now) }
    ensures virtuals { IfOk result (λ r. r.1.virtuals.items ≡ opened.virtuals tokens.now) }
{
    let left = tokens_left(alloc, tokens)?;
    let bases = bases_of(alloc, tokens)?;
    let virtuals = virtuals_of(alloc, tokens)?;
    Ok((left, Heads { bases, virtuals }))
}

// The tokens that are not taken out.
fn tokens_left(alloc: Global, tokens: &[Token]) -> Result<Vec<Token>, AllocError>
    requires few { length tokens.now < 2 ^ 32 }
    ensures { IfOk result (λ left. left.items ≡ opened.tokens_left tokens.now) }
{
    let mut left = Vec::new(alloc);
    for (index, token) in tokens.iter().enumerate() {
        if !is_taken_out(tokens, index as u32) {
            left.push(copy_of(alloc, token)?)?;
        }
    }
    Ok(left)
}

// The heads that name a base.
fn bases_of(alloc: Global, tokens: &[Token]) -> Result<Vec<(Pos, Name)>, AllocError>
    requires few { length tokens.now < 2 ^ 32 }
    ensures { IfOk result (λ bases. bases.items ≡ opened.bases tokens.now) }
{
    let mut bases = Vec::new(alloc);
    for at in 0..tokens.len() as u32 {
        if let Some(name) = base_name(tokens, at) {
            bases.push((first_place(tokens, at), name.copy(alloc)?))?;
        }
    }
    Ok(bases)
}

// The places behind each `virtual`.
fn virtuals_of(alloc: Global, tokens: &[Token]) -> Result<Vec<Pos>, AllocError>
    requires few { length tokens.now < 2 ^ 32 }
    ensures { IfOk result (λ virtuals. virtuals.items ≡ opened.virtuals tokens.now) }
{
    let mut virtuals = Vec::new(alloc);
    for at in 0..tokens.len() as u32 {
        if is_virtual_at(tokens, at) {
            virtuals.push(place_behind(tokens, at))?;
        }
    }
    Ok(virtuals)
}

// Whether the token at a place is taken out.
fn is_taken_out(tokens: &[Token], at: u32) -> bool
    requires few { length tokens.now < 2 ^ 32 }
    ensures { result ≡ opened.is_taken_out tokens.now at }
{
    is_virtual_at(tokens, at) || is_in_base(tokens, at)
}

// The place of the token behind the one at `at`, or the place of that where it is the last.
fn place_behind(tokens: &[Token], at: u32) -> Pos
    requires inside { at < length tokens.now }
    ensures { result ≡ opened.place_behind tokens.now at }
{
    match tokens.get(at as usize + 1) {
        Some(next) => next.pos,
        None => pos_at(tokens, at),
    }
}

fn copy_of(alloc: Global, token: &Token) -> Result<Token, AllocError>
    ensures { IfOk result (λ copy. copy ≡ token.now) }
{
    let kind = kind_copy(alloc, &token.kind)?;
    Ok(Token {
        kind,
        at: token.at,
        pos: token.pos,
    })
}

fn kind_copy(alloc: Global, kind: &TokenKind) -> Result<TokenKind, AllocError>
    ensures { IfOk result (λ copy. copy ≡ kind.now) }
{
    match kind {
        TokenKind::Name(name) => Ok(TokenKind::Name(name.copy(alloc)?)),
        TokenKind::Number(number) => Ok(TokenKind::Number(*number)),
        TokenKind::Character(code) => Ok(TokenKind::Character(*code)),
        TokenKind::Text(text) => Ok(TokenKind::Text(text.copy(alloc)?)),
        TokenKind::Word(word) => Ok(TokenKind::Word(*word)),
        TokenKind::Sign(sign) => Ok(TokenKind::Sign(*sign)),
    }
}
