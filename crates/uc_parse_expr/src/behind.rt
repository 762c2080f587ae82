// What was read, and what stands behind it. These own what was read, so that their callers need not end it where the rest
// fails.

ghost use Rattle.std.specs.Prelude.{◌≡◌, ◌+◌, ◌<◌, ◌≤◌, ◌^◌, IfOk, IfErr, Ok, Err, Some, length};
ghost use Rattle.uc_grammar.specs.Spell.{kind_at};
ghost use Rattle.uc_parse_expr.specs.Faults.{token_of};

use crate::peek::expect_sign;
use uc_grammar::fault::ParseFault;
use uc_tree::token::{Sign, Token, TokenKind};

/// What was read, with what was read behind it.
pub fn kept<T: Drop, U: Drop>(read: T, next: Result<U, ParseFault>) -> Result<(T, U), ParseFault>
    ensures found { IfOk result (λ r. (r.0 ≡ read) × (next ≡ Ok r.1)) }
    ensures fails { IfErr result (λ f. next ≡ Err f) }
{
    match next {
        Ok(behind) => Ok((read, behind)),
        Err(fault) => Err(fault),
    }
}

/// What was read, and the place behind this sign, which must stand at `at`.
pub fn followed<T: Drop>(
    read: T,
    tokens: &[Token],
    at: u32,
    sign: Sign,
) -> Result<(T, u32), ParseFault>
    requires begins { at ≤ length tokens.now }
    requires few { length tokens.now < 2 ^ 32 }
    ensures same { IfOk result (λ r. r.0 ≡ read) }
    ensures found { IfOk result (λ r. (kind_at tokens.now at ≡ Some (TokenKind.Sign sign))
        × (r.1 ≡ at + 1)) }
    ensures fails { IfErr result (λ f. (f ≡ ParseFault.Syntax at)
        × (kind_at tokens.now at ≡ Some (TokenKind.Sign sign) → ⊥)) }
    ensures moved { IfOk result (λ r. r.1 ≤ length tokens.now) }
    ensures within { IfErr result (λ f. token_of f ≤ length tokens.now) }
{
    let to = expect_sign(tokens, at, sign)?;
    Ok((read, to))
}
