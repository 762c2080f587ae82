// Class heads that name a base.

ghost use Rattle.std.specs.Prelude.{◌≡◌, ◌+◌, ◌<◌, ◌^◌, None, Some, IsTrue, MatchOption, length};
ghost use Rattle.uc_inherit.specs.ClassHeads as heads;
ghost use Rattle.uc_inherit.specs.OpenedTokens as opened;

use crate::peek::{
    ends_kind_at, is_brace_at, is_colon_at, is_mutex_at, is_name_at, is_public_at, may_be_mutex_at,
};
use uc_parse_expr::peek::{kind_at, pos_at};
use uc_tree::name::Name;
use uc_tree::pos::Pos;
use uc_tree::token::{Token, TokenKind};

/// Whether a head with a base stands at a place, which is that of the last word of its kind.
#[tactic(auto, unfolding(crate::specs::ClassHeads::is_head))]
pub fn is_head(tokens: &[Token], at: u32) -> bool
    requires few { length tokens.now < 2 ^ 32 }
    ensures head { result ≡ heads.is_head tokens.now at }
    ensures inside { IsTrue result → at + 5 < length tokens.now }
{
    ends_kind_at(tokens, at)
        && is_name_at(tokens, at + 1)
        && is_colon_at(tokens, at + 2)
        && is_public_at(tokens, at + 3)
        && is_name_at(tokens, at + 4)
        && is_brace_at(tokens, at + 5)
}

/// The name of the base where a head with one stands at a place.
#[tactic(auto, unfolding(crate::specs::OpenedTokens::base_name))]
pub fn base_name(tokens: &[Token], at: u32) -> Option<&Name>
    requires few { length tokens.now < 2 ^ 32 }
    ensures { MatchOption result (opened.base_name tokens.now at ≡ None)
        (λ n. opened.base_name tokens.now at ≡ Some n.now) }
{
    if !is_head(tokens, at) {
        return None;
    }
    match kind_at(tokens, at + 4) {
        Some(TokenKind::Name(name)) => Some(name),
        Some(_) => None,
        None => None,
    }
}

/// The place of the first token of the class whose kind has its last word at `at`.
#[tactic(auto, unfolding(crate::specs::ClassHeads::first_place))]
pub fn first_place(tokens: &[Token], at: u32) -> Pos
    ensures { result ≡ heads.first_place tokens.now at }
{
    if has_mutex(tokens, at) {
        pos_at(tokens, at - 1)
    } else {
        pos_at(tokens, at)
    }
}

// Whether a `_Mutex` belongs to the kind whose last word stands at a place.
#[tactic(auto, unfolding(crate::specs::ClassHeads::has_mutex))]
fn has_mutex(tokens: &[Token], at: u32) -> bool
    ensures mutex { result ≡ heads.has_mutex tokens.now at }
    ensures behind { IsTrue result → 0 < at }
{
    may_be_mutex_at(tokens, at) && 1 <= at && is_mutex_at(tokens, at - 1)
}

// Whether a head with a base begins so many tokens before a place, by the last word of its kind.
#[tactic(auto, unfolding(crate::specs::ClassHeads::is_head_before))]
fn is_head_before(tokens: &[Token], at: u32, back: u32) -> bool
    requires few { length tokens.now < 2 ^ 32 }
    ensures { result ≡ heads.is_head_before tokens.now at back }
{
    back <= at && is_head(tokens, at - back)
}

/// Whether one of the tokens `: public name` of a head stands at a place.
#[tactic(auto, unfolding(crate::specs::ClassHeads::is_in_base))]
pub fn is_in_base(tokens: &[Token], at: u32) -> bool
    requires few { length tokens.now < 2 ^ 32 }
    ensures { result ≡ heads.is_in_base tokens.now at }
{
    is_head_before(tokens, at, 2) || is_head_before(tokens, at, 3) || is_head_before(tokens, at, 4)
}
