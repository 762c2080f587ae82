// What single tokens say of a class or an item.

ghost use Rattle.std.specs.Prelude.{◌≡◌, ◌≢◌, ◌<◌, ◌≤◌, ◌^◌, ◌↔◌, ℕ, IfOk, IfErr, IsSome, IsTrue, length};
ghost use Rattle.uc_grammar.specs.Form.{Spells, Fails};
ghost use Rattle.uc_grammar.specs.Grammar.{kind_form, mark_form, scalar_form, inner, faults};
ghost use Rattle.uc_grammar.specs.Spell.{kind_at, Begins};
ghost use Rattle.uc_grammar.specs.Tables.{word_of, access_of, any_token};
ghost use Rattle.uc_parse_expr.specs.Faults.{token_of};
ghost use Rattle.uc_parse_class.specs.Forms.{mutex_kind_form};

use uc_grammar::fault::ParseFault;
use uc_parse_expr::peek::word_at;
use uc_tree::kinds::{Access, Base, Kind, MutexMark};
use uc_tree::token::{Token, Word};

/// Whether a token stands at a place.
pub fn is_token_at(tokens: &[Token], at: u32) -> bool
    ensures begins { IsTrue result ↔ Begins any_token tokens.now at }
    ensures inside { IsTrue result ↔ (at < length tokens.now) }
{
    (at as usize) < tokens.len()
}

fn access_of(word: Word) -> Option<Access>
    ensures { result ≡ access_of (Some word) }
{
    match word {
        Word::Public => Some(Access::Public),
        Word::Private => Some(Access::Private),
        Word::Protected => Some(Access::Protected),
        _ => None,
    }
}

/// The access that the word at a place names.
pub fn access_at(tokens: &[Token], at: u32) -> Option<Access>
    ensures access { result ≡ access_of (word_of (kind_at tokens.now at)) }
    ensures inside { IsSome result → at < length tokens.now }
{
    match word_at(tokens, at) {
        Some(word) => access_of(word),
        None => None,
    }
}

/// The mark of a member, if there is one, and the place behind it.
pub fn skip_mark(tokens: &[Token], at: u32) -> (MutexMark, u32)
    requires begins { at ≤ length tokens.now }
    requires few { length tokens.now < 2 ^ 32 }
    ensures found { (room : ℕ) → Spells (inner room) mark_form tokens.now at result.1 result.0 }
    ensures moved { (at ≤ result.1) × (result.1 ≤ length tokens.now) }
{
    match word_at(tokens, at) {
        Some(Word::Mutex) => (MutexMark::Mutex, at + 1),
        Some(Word::Nomutex) => (MutexMark::Nomutex, at + 1),
        _ => (MutexMark::Unmarked, at),
    }
}

/// The word of a scalar.
pub fn read_scalar(tokens: &[Token], at: u32) -> Result<(Base, u32), ParseFault>
    requires begins { at ≤ length tokens.now }
    requires few { length tokens.now < 2 ^ 32 }
    ensures found { IfOk result (λ r. (room : ℕ) →
        Spells (inner room) scalar_form tokens.now at r.1 r.0) }
    ensures fails { IfErr result (λ f. (room : ℕ) →
        Fails (inner room) (faults room) scalar_form tokens.now at f) }
    ensures moved { IfOk result (λ r. (at < r.1) × (r.1 ≤ length tokens.now)) }
    ensures within { IfErr result (λ f. token_of f ≤ length tokens.now) }
    ensures takes_no_memory { IfErr result (λ f. f ≢ ParseFault.NoMemory) }
{
    match word_at(tokens, at) {
        Some(Word::Int) => Ok((Base::Int, at + 1)),
        Some(Word::Char) => Ok((Base::Char, at + 1)),
        Some(Word::Bool) => Ok((Base::Bool, at + 1)),
        _ => Err(ParseFault::Syntax { token: at }),
    }
}

// What follows the `_Mutex` of a kind.
fn read_mutex_kind(tokens: &[Token], at: u32) -> Result<(Kind, u32), ParseFault>
    requires begins { at ≤ length tokens.now }
    requires few { length tokens.now < 2 ^ 32 }
    ensures found { IfOk result (λ r. (room : ℕ) →
        Spells (inner room) mutex_kind_form tokens.now at r.1 r.0) }
    ensures fails { IfErr result (λ f. (room : ℕ) →
        Fails (inner room) (faults room) mutex_kind_form tokens.now at f) }
    ensures moved { IfOk result (λ r. (at < r.1) × (r.1 ≤ length tokens.now)) }
    ensures within { IfErr result (λ f. token_of f ≤ length tokens.now) }
    ensures takes_no_memory { IfErr result (λ f. f ≢ ParseFault.NoMemory) }
{
    match word_at(tokens, at) {
        Some(Word::Class) => Ok((Kind::Monitor, at + 1)),
        Some(Word::Coroutine) => Ok((Kind::Cormonitor, at + 1)),
        _ => Err(ParseFault::Syntax { token: at }),
    }
}

/// The kind of a class.
pub fn read_kind(tokens: &[Token], at: u32) -> Result<(Kind, u32), ParseFault>
    requires begins { at ≤ length tokens.now }
    requires few { length tokens.now < 2 ^ 32 }
    ensures found { IfOk result (λ r. (room : ℕ) →
        Spells (inner room) kind_form tokens.now at r.1 r.0) }
    ensures fails { IfErr result (λ f. (room : ℕ) →
        Fails (inner room) (faults room) kind_form tokens.now at f) }
    ensures moved { IfOk result (λ r. (at < r.1) × (r.1 ≤ length tokens.now)) }
    ensures within { IfErr result (λ f. token_of f ≤ length tokens.now) }
    ensures takes_no_memory { IfErr result (λ f. f ≢ ParseFault.NoMemory) }
{
    match word_at(tokens, at) {
        Some(Word::Class) => Ok((Kind::Class, at + 1)),
        Some(Word::Coroutine) => Ok((Kind::Coroutine, at + 1)),
        Some(Word::Monitor) => Ok((Kind::Monitor, at + 1)),
        Some(Word::Cormonitor) => Ok((Kind::Cormonitor, at + 1)),
        Some(Word::Task) => Ok((Kind::Task, at + 1)),
        Some(Word::Event) => Ok((Kind::Event, at + 1)),
        Some(Word::Mutex) => {
            let (kind, to) = read_mutex_kind(tokens, at + 1)?;
            Ok((kind, to))
        }
        _ => Err(ParseFault::Syntax { token: at }),
    }
}
