// How a run ends: the status and the line on err.

ghost use Rattle.std.specs.Prelude.{◌≡◌, ◌<◌, OnOk, OnErr};
ghost use Rattle.uc_outside.specs.Taking.{Took, TookPrefix, FailedAt};
ghost use Rattle.uc_top.specs.Endings.{IsEnded, EndsWith, told_of, ending_status, ending_text, name_of_number};

use crate::refusals::{put_line, put_pieces};
use itoa::Buffer;
use uc_entry::entry::{Entry, EntryKind};
use uc_entry::fault::RunFault;
use uc_outside::{Sink, SinkFault};

/// How a run ends.
#[derive(Clone, Copy)]
pub enum Ending {
    /// Task 0 has ended.
    Done,
    /// A run fault, at this line, in this task.
    Fault { number: i64, line: i64, task: u32 },
    /// No task is ready, and none runs.
    Deadlock,
    /// None runs, and none is ready where a processor is open.
    NoProcessor,
    /// The limit on entries or on ticks was reached.
    Limit,
}

impl Ending {
    /// The status of the call.
    pub(crate) fn status(self) -> u8
        ensures { result ≡ ending_status self }
    {
        match self {
            Ending::Done => 0,
            Ending::Fault { .. } => 5,
            Ending::Deadlock => 6,
            Ending::NoProcessor => 6,
            Ending::Limit => 7,
        }
    }
}

/// The ending that the last entry tells.
pub(crate) fn ending_of(journal: &[Entry]) -> Ending
    requires { IsEnded journal.now }
    ensures { EndsWith journal.now result }
{
    told_by(journal[journal.len() - 1])
}

// What an entry that ends a run tells.
fn told_by(last: Entry) -> Ending
    ensures { result ≡ told_of last.kind last }
{
    match last.kind {
        EntryKind::Fault => Ending::Fault {
            number: last.a,
            line: last.b,
            task: last.task,
        },
        EntryKind::Deadlock => Ending::Deadlock,
        EntryKind::NoProcessor => Ending::NoProcessor,
        EntryKind::Limit => Ending::Limit,
        _ => Ending::Done,
    }
}

/// Puts the line of an ending; of one that is done nothing.
pub(crate) fn put_ending<E: Sink>(err: &mut E, ending: Ending) -> Result<(), SinkFault>
    ensures ok { OnOk result (Took (E.state err.old) (E.state err.new) (ending_text ending)) }
    ensures failed { OnErr result
        (FailedAt (E.state err.old) (E.state err.new) (ending_text ending)) }
    ensures prefix { OnErr result
        (TookPrefix (E.state err.old) (E.state err.new) (ending_text ending)) }
{
    match ending {
        Ending::Done => Ok(()),
        Ending::Fault { number, line, task } => {
            put_fault(err, number, line, task)?;
            Ok(())
        }
        Ending::Deadlock => {
            put_line(err, b"deadlock", b"")?;
            Ok(())
        }
        Ending::NoProcessor => {
            put_line(err, b"no processor", b"")?;
            Ok(())
        }
        Ending::Limit => {
            put_line(err, b"limit", b"")?;
            Ok(())
        }
    }
}

// Puts the line of a run fault.
fn put_fault<E: Sink>(err: &mut E, number: i64, line: i64, task: u32) -> Result<(), SinkFault>
    ensures ok { OnOk result (Took (E.state err.old) (E.state err.new)
        (ending_text (Ending.Fault number line task))) }
    ensures failed { OnErr result
        (FailedAt (E.state err.old) (E.state err.new) (ending_text (Ending.Fault number line task))) }
    ensures prefix { OnErr result
        (TookPrefix (E.state err.old) (E.state err.new)
        (ending_text (Ending.Fault number line task))) }
{
    let name = name_of_number(number);
    let mut line_buffer = Buffer::new();
    let line = line_buffer.format(line).as_bytes();
    let mut task_buffer = Buffer::new();
    let task = task_buffer.format(task).as_bytes();
    put_pieces(
        err,
        &[
            b"ucpp: fault ",
            name,
            b" at line ",
            line,
            b" in task ",
            task,
            b"\n",
        ],
    )?;
    Ok(())
}

// The name of the run fault of this number.
fn name_of_number(number: i64) -> &'static [u8]
    ensures { result.now ≡ name_of_number number }
{
    match RunFault::of_number(number) {
        Some(fault) => fault.name(),
        None => b"",
    }
}
