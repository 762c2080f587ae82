// The answer to one line of input.

ghost use Rattle.std.specs.Prelude.{◌≤◌, length};
ghost use Rattle.uc_tree.specs.declared.limits.TheConstants.{PROGRAM_BYTES};

use crate::bytes::bytes_of;
use crate::numbers::numbers_of;
use crate::tree::write_expr;
use std::alloc::{AllocError, Global};
use uc_grammar::fault::ParseFault;
use uc_inherit::opening::open_classes;
use uc_lex::{lex, pos_at};
use uc_parse_class::parse::parse;
use uc_parse_expr::parse::parse_expr;
use uc_tree::limits::{NESTING, PROGRAM_BYTES};
use uc_tree::token::{Token, TokenKind};

/// The longest text literal whose bytes are shown.
const SHOWN: usize = 16;

/// The answer to a line.
pub(crate) fn answer(alloc: Global, line: &str) -> Result<String, AllocError> {
    match parted(line) {
        Some((kind, number, text)) => {
            let text = bytes_of(alloc, text, number as usize)?;
            of_text(alloc, kind, number, &text)
        }
        None => format!(in alloc; "{line}"),
    }
}

// The kind, the number and the text of a line.
fn parted(line: &str) -> Option<(&str, u32, &str)> {
    if line.starts_with('#') {
        return None;
    }
    let (kind, rest) = line.split_once(' ')?;
    let (number, text) = rest.split_once(' ')?;
    let number = number.parse::<u32>().ok()?;
    Some((kind, number, text))
}

fn of_text(alloc: Global, kind: &str, number: u32, text: &[u8]) -> Result<String, AllocError> {
    if text.len() > PROGRAM_BYTES as usize {
        return format!(in alloc; "too long");
    }
    if kind == "place" {
        return of_place(alloc, text, number);
    }
    match lex(alloc, text) {
        Ok(tokens) => of_tokens(alloc, kind, number, text, &tokens),
        Err(fault) => format!(in alloc; "{fault:?}"),
    }
}

fn of_place(alloc: Global, text: &[u8], at: u32) -> Result<String, AllocError>
    requires { length text.now ≤ PROGRAM_BYTES }
{
    if at as usize > text.len() {
        return format!(in alloc; "out of range");
    }
    let pos = pos_at(text, at);
    format!(in alloc; "{}:{}", pos.line, pos.col)
}

fn of_tokens(
    alloc: Global,
    kind: &str,
    number: u32,
    text: &[u8],
    tokens: &[Token],
) -> Result<String, AllocError>
    requires text { length text.now ≤ PROGRAM_BYTES }
    requires tokens { length tokens.now ≤ PROGRAM_BYTES }
{
    match kind {
        "lex" => outlines_of(alloc, tokens),
        "expr" => of_expr(alloc, number, tokens),
        "open" => of_opened(alloc, tokens),
        "program" => of_program(alloc, text, tokens),
        _ => format!(in alloc; "no kind"),
    }
}

fn outlines_of(alloc: Global, tokens: &[Token]) -> Result<String, AllocError> {
    let mut line = format!(in alloc; "{} tokens", tokens.len())?;
    for token in tokens {
        let shown = outline_of(alloc, token)?;
        line.push_str(shown.as_str())?;
    }
    Ok(line)
}

fn outline_of(alloc: Global, token: &Token) -> Result<String, AllocError> {
    let at = token.at;
    let line = token.pos.line;
    let col = token.pos.col;
    let kind = match &token.kind {
        TokenKind::Name(name) => format!(in alloc; "name of {}", name.bytes().len())?,
        TokenKind::Number(value) => format!(in alloc; "{value}")?,
        TokenKind::Character(value) => format!(in alloc; "'{value}'")?,
        TokenKind::Text(text) if text.bytes().len() > SHOWN => {
            format!(in alloc; "text of {}", text.bytes().len())?
        }
        TokenKind::Text(text) => format!(in alloc; "{:?}", text.bytes())?,
        TokenKind::Word(word) => format!(in alloc; "{word:?}")?,
        TokenKind::Sign(sign) => format!(in alloc; "{sign:?}")?,
    };
    format!(in alloc; "; {kind} {at} {line}:{col}")
}

// The tokens without bases and `virtual`, and what was taken out.
fn of_opened(alloc: Global, tokens: &[Token]) -> Result<String, AllocError>
    requires { length tokens.now ≤ PROGRAM_BYTES }
{
    let (left, heads) = open_classes(alloc, tokens)?;
    let mut line = outlines_of(alloc, &left)?;
    for (pos, base) in &heads.bases {
        let shown = format!(in alloc; "; base {:?} {}:{}", base.bytes(), pos.line, pos.col)?;
        line.push_str(shown.as_str())?;
    }
    for pos in &heads.virtuals {
        let shown = format!(in alloc; "; virtual {}:{}", pos.line, pos.col)?;
        line.push_str(shown.as_str())?;
    }
    Ok(line)
}

// The expression that the tokens begin with, at that depth.
fn of_expr(alloc: Global, depth: u32, tokens: &[Token]) -> Result<String, AllocError>
    requires { length tokens.now ≤ PROGRAM_BYTES }
{
    if depth > u32::from(NESTING) {
        return format!(in alloc; "out of range");
    }
    match parse_expr(alloc, tokens, 0, depth as u16) {
        Ok((e, to)) => {
            let mut out = String::new(alloc);
            write_expr(alloc, &mut out, &e)?;
            format!(in alloc; "{to}: {out}")
        }
        Err(ParseFault::Syntax { token }) => format!(in alloc; "syntax at {token}"),
        Err(ParseFault::TooDeep { token }) => format!(in alloc; "too deep at {token}"),
        Err(ParseFault::NoMemory) => Err(AllocError),
    }
}

// The program that the tokens are.
fn of_program(alloc: Global, text: &[u8], tokens: &[Token]) -> Result<String, AllocError>
    requires text { length text.now ≤ PROGRAM_BYTES }
    requires tokens { length tokens.now ≤ PROGRAM_BYTES }
{
    let (token, fault) = match parse(alloc, tokens) {
        Ok(program) => return numbers_of(alloc, &program),
        Err(ParseFault::Syntax { token }) => (token, "syntax"),
        Err(ParseFault::TooDeep { token }) => (token, "too deep"),
        Err(ParseFault::NoMemory) => return Err(AllocError),
    };
    // A fault behind the last token stands just past the end of the text.
    let pos = match tokens.get(token as usize) {
        Some(token) => token.pos,
        None => pos_at(text, text.len() as u32),
    };
    format!(in alloc; "{}:{}: {fault}", pos.line, pos.col)
}
