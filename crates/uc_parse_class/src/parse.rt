// The parser of programs: a descent that looks at one token.
//
// Each `read_` function reads one form of the grammar from a token on. `room` is how many further levels may be nested in
// it. It answers what the tokens spell and the number of the next token, or how a reading fails.

ghost use Rattle.std.specs.Prelude.{◌≡◌, ◌+◌, ◌<◌, ◌≤◌, ◌^◌, IfOk, IfErr, length};
ghost use Rattle.uc_grammar.specs.Form.{Spells, Fails};
ghost use Rattle.uc_parse_expr.specs.Faults.{token_of};
ghost use Rattle.std.specs.Prelude.{◌*◌, ℕ};
ghost use Rattle.uc_grammar.specs.Grammar.{inner, faults};
ghost use Rattle.uc_grammar.specs.Text.{IsProgram, ProgramFails};
ghost use Rattle.uc_parse_class.specs.Forms.{items_form};
ghost use Rattle.uc_parse_class.specs.Found.{OnlyProgram, NeverProgram, NoProgram, FirstTooDeep};

use crate::item::read_item;
use crate::peek::is_token_at;
use std::alloc::Global;
use uc_grammar::fault::ParseFault;
use uc_tree::limits::NESTING;
use uc_tree::program::{Item, Program};
use uc_tree::token::Token;

/// The program that the tokens are.
pub fn parse(alloc: Global, tokens: &[Token]) -> Result<Program, ParseFault>
    requires few { length tokens.now < 2 ^ 32 }
    ensures found { IfOk result (λ p. IsProgram NESTING tokens.now 0 (length tokens.now) p) }
    ensures only { IfOk result (λ p. OnlyProgram tokens.now p) }
    ensures fails { IfErr result (λ f. ProgramFails NESTING tokens.now 0 f) }
    ensures none { IfErr result (λ f. (f ≡ ParseFault.NoMemory → ⊥) →
        NoProgram NESTING tokens.now) }
    ensures syntax { IfErr result (λ f. (p : ℕ) → f ≡ ParseFault.Syntax p →
        NeverProgram tokens.now p) }
    ensures deep { IfErr result (λ f. (k : ℕ) → f ≡ ParseFault.TooDeep k → NESTING ≤ 2 * k + 1) }
    ensures first { IfErr result (λ f. (k : ℕ) → f ≡ ParseFault.TooDeep k →
        FirstTooDeep NESTING tokens.now k) }
    ensures within { IfErr result (λ f. token_of f ≤ length tokens.now) }
{
    let items = read_items(alloc, tokens, NESTING)?;
    Ok(Program { items })
}

// All items.
fn read_items(alloc: Global, tokens: &[Token], room: u16) -> Result<Vec<Item>, ParseFault>
    requires few { length tokens.now < 2 ^ 32 }
    ensures found { IfOk result (λ r. Spells (inner room) items_form tokens.now 0
        (length tokens.now) r.items) }
    ensures fails { IfErr result (λ f. Fails (inner room) (faults room) items_form tokens.now 0 f) }
    ensures within { IfErr result (λ f. token_of f ≤ length tokens.now) }
{
    let (first, end) = read_item(alloc, tokens, 0, room)?;
    let mut all = Vec::new(alloc);
    all.push(first)?;
    let mut at = end;
    'items: while is_token_at(tokens, at) {
        let (next, end) = read_item(alloc, tokens, at, room)?;
        all.push(next)?;
        at = end;
    }
    Ok(all)
}
