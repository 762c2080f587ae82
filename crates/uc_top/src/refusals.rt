// What the top call refuses, and with which status and text.

ghost use Rattle.std.specs.Prelude.{◌≡◌, OnOk, OnErr, map};
ghost use Rattle.std.specs.List.{concat};
ghost use Rattle.uc_outside.specs.Taking.{Took, TookPrefix, FailedAt};
ghost use Rattle.uc_top.specs.Refusals.{status_of, lexical_reason, refusal_text, err_line, placed_line};

use itoa::Buffer;
use uc_outside::{Sink, SinkFault, put_all};
use uc_rules::rule::Rule;
use uc_tree::pos::Pos;
use uc_tree::scan::LexicalFault;

/// Why nothing is run.
#[derive(Clone, Copy)]
pub enum Refusal {
    /// The words are no line of the table; the number of the first at fault.
    Word(u32),
    /// The store did not give a named file.
    CannotRead,
    /// A named file is longer than its text may be.
    TooLong,
    /// The text has no tokens, and where it stops having them.
    Lexical(LexicalFault, Pos),
    /// Where the text stops being the beginning of a program.
    Syntax(Pos),
    /// Where a piece begins that is nested too deep.
    TooDeep(Pos),
    /// The first rule that the program breaks, and where.
    Broken(Rule, Pos),
    /// A routine has more cells than a frame may have.
    FrameTooLarge,
    /// The frames fit, and the program is larger than its code may be.
    CodeTooLarge,
    /// The text is no journal's; the first line that is no entry's, from 1.
    BadLine(u32),
    /// Memory was refused.
    NoMemory,
}

impl Refusal {
    /// The status of the call.
    pub(crate) fn status(self) -> u8
        ensures { result ≡ status_of self }
    {
        match self {
            Refusal::Word(_) => 2,
            Refusal::CannotRead => 3,
            Refusal::TooLong => 3,
            Refusal::Lexical(_, _) => 1,
            Refusal::Syntax(_) => 1,
            Refusal::TooDeep(_) => 1,
            Refusal::Broken(_, _) => 1,
            Refusal::FrameTooLarge => 1,
            Refusal::CodeTooLarge => 1,
            Refusal::BadLine(_) => 10,
            Refusal::NoMemory => 8,
        }
    }
}

/// Puts the line of a refusal; `name` is the file that was not read.
pub(crate) fn put_refusal<E: Sink>(
    err: &mut E,
    refusal: Refusal,
    name: &str,
) -> Result<(), SinkFault>
    ensures ok { OnOk result (Took (E.state err.old) (E.state err.new)
        (refusal_text refusal name.now)) }
    ensures failed { OnErr result
        (FailedAt (E.state err.old) (E.state err.new) (refusal_text refusal name.now)) }
    ensures prefix { OnErr result
        (TookPrefix (E.state err.old) (E.state err.new) (refusal_text refusal name.now)) }
{
    match refusal {
        Refusal::Word(number) => {
            let mut buffer = Buffer::new();
            put_line(err, b"word ", buffer.format(number).as_bytes())?;
        }
        Refusal::CannotRead => put_line(err, b"cannot read ", name.as_bytes())?,
        Refusal::TooLong => put_line(err, b"too long ", name.as_bytes())?,
        Refusal::Lexical(why, pos) => put_placed(err, pos, lexical_text(why))?,
        Refusal::Syntax(pos) => put_placed(err, pos, b"syntax")?,
        Refusal::TooDeep(pos) => put_placed(err, pos, b"too deep")?,
        Refusal::Broken(rule, pos) => put_placed(err, pos, rule.name())?,
        Refusal::FrameTooLarge => put_line(err, b"frame too large", b"")?,
        Refusal::CodeTooLarge => put_line(err, b"code too large", b"")?,
        Refusal::BadLine(number) => {
            let mut buffer = Buffer::new();
            put_line(err, b"journal line ", buffer.format(number).as_bytes())?;
        }
        Refusal::NoMemory => put_line(err, b"out of memory", b"")?,
    }
    Ok(())
}

// What is said of a text without tokens.
fn lexical_text(why: LexicalFault) -> &'static [u8]
    ensures { result.now ≡ lexical_reason why }
{
    match why {
        LexicalFault::BadByte => b"bad byte",
        LexicalFault::OpenComment => b"comment not closed",
        LexicalFault::OpenText => b"text not closed",
        LexicalFault::NumberTooWide => b"number too wide",
        LexicalFault::TextTooLong(_) => b"text too long",
    }
}

/// Puts `ucpp: `, the two parts of a reason, and a newline.
pub(crate) fn put_line<E: Sink>(err: &mut E, reason: &[u8], detail: &[u8]) -> Result<(), SinkFault>
    ensures ok { OnOk result (Took (E.state err.old) (E.state err.new)
        (err_line reason.now detail.now)) }
    ensures failed { OnErr result
        (FailedAt (E.state err.old) (E.state err.new) (err_line reason.now detail.now)) }
    ensures prefix { OnErr result
        (TookPrefix (E.state err.old) (E.state err.new) (err_line reason.now detail.now)) }
{
    put_pieces(err, &[b"ucpp: ", reason, detail, b"\n"])?;
    Ok(())
}

// Puts `ucpp: `, the place of the text, the reason, and a newline.
fn put_placed<E: Sink>(err: &mut E, pos: Pos, reason: &[u8]) -> Result<(), SinkFault>
    ensures ok { OnOk result (Took (E.state err.old) (E.state err.new) (placed_line pos reason.now)) }
    ensures failed { OnErr result
        (FailedAt (E.state err.old) (E.state err.new) (placed_line pos reason.now)) }
    ensures prefix { OnErr result
        (TookPrefix (E.state err.old) (E.state err.new) (placed_line pos reason.now)) }
{
    let mut line_buffer = Buffer::new();
    let line = line_buffer.format(pos.line).as_bytes();
    let mut col_buffer = Buffer::new();
    let col = col_buffer.format(pos.col).as_bytes();
    put_pieces(err, &[b"ucpp: ", line, b":", col, b": ", reason, b"\n"])
}

/// Puts pieces one after another.
pub(crate) fn put_pieces<E: Sink>(err: &mut E, pieces: &[&[u8]]) -> Result<(), SinkFault>
    ensures ok { OnOk result (Took (E.state err.old) (E.state err.new)
        (concat (map (λ p. p.now) pieces.now))) }
    ensures failed { OnErr result
        (FailedAt (E.state err.old) (E.state err.new) (concat (map (λ p. p.now) pieces.now))) }
    ensures prefix { OnErr result
        (TookPrefix (E.state err.old) (E.state err.new) (concat (map (λ p. p.now) pieces.now))) }
{
    for piece in pieces {
        put_all(err, piece)?;
    }
    Ok(())
}
