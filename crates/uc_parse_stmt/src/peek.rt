// What single tokens say of a statement.

ghost use Rattle.std.specs.Prelude.{◌≡◌, ◌≢◌, ◌<◌, ◌↔◌, IsSome, IsTrue, MatchOption, false, length};
ghost use Rattle.uc_grammar.specs.Spell.{kind_at, Begins};
ghost use Rattle.uc_grammar.specs.Tables.{word_of, handler_of, start_by_word, start_by_sign, stmt_start, is_or, is_handler, in_braces};

use uc_grammar::start::StmtStart;
use uc_parse_expr::peek::{is_word, kind_at, word_at};
use uc_tree::kinds::HandlerKind;
use uc_tree::token::{Sign, Token, TokenKind, Word};

fn start_by_word(word: Word) -> StmtStart
    ensures { result ≡ start_by_word word }
{
    match word {
        Word::If => StmtStart::If,
        Word::While => StmtStart::While,
        Word::Do => StmtStart::Do,
        Word::For => StmtStart::For,
        Word::Break => StmtStart::Break,
        Word::Continue => StmtStart::Continue,
        Word::Return => StmtStart::Return,
        Word::Try => StmtStart::Try,
        Word::ThrowEvent => StmtStart::Throw,
        Word::ResumeEvent => StmtStart::Raise,
        Word::Enable => StmtStart::Enable,
        Word::Disable => StmtStart::Disable,
        Word::When => StmtStart::Accept,
        Word::Accept => StmtStart::Accept,
        Word::Cout => StmtStart::Print,
        Word::Osacquire => StmtStart::PrintTogether,
        Word::Cin => StmtStart::Cin,
        Word::Resume => StmtStart::Resume,
        Word::Suspend => StmtStart::Suspend,
        Word::Yield => StmtStart::Yield,
        Word::Migrate => StmtStart::Migrate,
        _ => StmtStart::Simple,
    }
}

fn start_by_sign(sign: Sign) -> StmtStart
    ensures { result ≡ start_by_sign sign }
{
    match sign {
        Sign::OpenBrace => StmtStart::Block,
        Sign::Semicolon => StmtStart::Empty,
        _ => StmtStart::Simple,
    }
}

/// What the statement at a place is, by its first token.
pub fn start_at(tokens: &[Token], at: u32) -> StmtStart
    ensures start { result ≡ stmt_start (kind_at tokens.now at) }
    ensures inside { result ≢ StmtStart.Simple → at < length tokens.now }
{
    match kind_at(tokens, at) {
        Some(TokenKind::Word(word)) => start_by_word(*word),
        Some(TokenKind::Sign(sign)) => start_by_sign(*sign),
        Some(TokenKind::Name(_)) => StmtStart::Simple,
        Some(TokenKind::Number(_)) => StmtStart::Simple,
        Some(TokenKind::Character(_)) => StmtStart::Simple,
        Some(TokenKind::Text(_)) => StmtStart::Simple,
        None => StmtStart::Simple,
    }
}

fn handler_of(word: Word) -> Option<HandlerKind>
    ensures { result ≡ handler_of (Some word) }
{
    match word {
        Word::Catch => Some(HandlerKind::Catch),
        Word::CatchResume => Some(HandlerKind::CatchResume),
        _ => None,
    }
}

/// The kind of the handler that begins at a place.
pub fn handler_at(tokens: &[Token], at: u32) -> Option<HandlerKind>
    ensures kind { result ≡ handler_of (word_of (kind_at tokens.now at)) }
    ensures inside { IsSome result → at < length tokens.now }
{
    match word_at(tokens, at) {
        Some(word) => handler_of(word),
        None => None,
    }
}

/// Whether a handler begins at a place.
pub fn is_handler_at(tokens: &[Token], at: u32) -> bool
    ensures begins { IsTrue result ↔ Begins (λ o. is_handler (word_of o)) tokens.now at }
    ensures inside { IsTrue result → at < length tokens.now }
{
    handler_at(tokens, at).is_some()
}

/// Whether `or` stands at a place.
pub fn is_or_at(tokens: &[Token], at: u32) -> bool
    ensures begins { IsTrue result ↔ Begins (λ o. is_or (word_of o)) tokens.now at }
    ensures inside { IsTrue result → at < length tokens.now }
{
    match word_at(tokens, at) {
        Some(Word::Or) => true,
        _ => false,
    }
}

/// Whether a token other than `}` stands at a place.
pub fn in_braces_at(tokens: &[Token], at: u32) -> bool
    ensures begins { IsTrue result ↔ Begins in_braces tokens.now at }
    ensures inside { IsTrue result → at < length tokens.now }
{
    match kind_at(tokens, at) {
        Some(TokenKind::Sign(Sign::CloseBrace)) => false,
        Some(_) => true,
        None => false,
    }
}

/// Whether this word, if it is one, stands at a place.
pub fn is_maybe_word(tokens: &[Token], at: u32, word: Option<Word>) -> bool
    ensures word { MatchOption word (result
        ≡ false) (λ w. IsTrue result ↔ (kind_at tokens.now at ≡ Some (TokenKind.Word w))) }
    ensures inside { IsTrue result → at < length tokens.now }
{
    match word {
        Some(word) => is_word(tokens, at, word),
        None => false,
    }
}
