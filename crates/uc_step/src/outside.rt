// The ops that print.

ghost use Rattle.std.specs.Prelude.{◌≡◌, IfOk, OnErr};
ghost use Rattle.uc_step.specs.Effects.{ended};
ghost use Rattle.uc_step.specs.OpEffects.{Does};

use crate::effect::{QuietResult, Stop, put_ask, put_item};
use crate::slot::Slot;
use std::alloc::AllocError;
use uc_code::code::Code;
use uc_code::op::Op;
use uc_entry::request::{Piece, TEXT_FORM};
use uc_frames::cell::number_in;
use uc_frames::work::Work;
use uc_tree::kinds::ValueForm;

#[inline(always)]
pub(crate) fn print(
    code: &Code,
    line: u32,
    work: &mut Work,
    stop: &mut Stop,
    asked: &mut Slot,
    form: ValueForm,
) -> Result<QuietResult, AllocError>
    ensures ok { IfOk result (λ how. Does code.now line (Op.Print form) work.old
        (ended how stop.new asked.new) work.new) }
    ensures err { OnErr result (work.new ≡ work.old) }
{
    let piece = Piece {
        form: form.number(),
        value: number_in(work.top()),
    };
    if work.is_gathering() {
        work.gather(piece)?;
        work.pop();
        Ok(QuietResult::Quiet)
    } else {
        work.pop();
        Ok(put_item(code, line, work, stop, asked, piece))
    }
}

#[inline(always)]
pub(crate) fn text(
    code: &Code,
    line: u32,
    work: &mut Work,
    stop: &mut Stop,
    asked: &mut Slot,
    number: u32,
) -> Result<QuietResult, AllocError>
    ensures ok { IfOk result (λ how. Does code.now line (Op.Text number) work.old
        (ended how stop.new asked.new) work.new) }
    ensures err { OnErr result (work.new ≡ work.old) }
{
    let piece = Piece {
        form: TEXT_FORM,
        value: i64::from(number),
    };
    if work.is_gathering() {
        work.gather(piece)?;
        Ok(QuietResult::Quiet)
    } else {
        Ok(put_item(code, line, work, stop, asked, piece))
    }
}

pub(crate) fn flush(
    code: &Code,
    line: u32,
    work: &mut Work,
    stop: &mut Stop,
    asked: &mut Slot,
) -> QuietResult
    ensures { Does code.now line Op.Flush work.old (ended result stop.new asked.new) work.new }
{
    match work.take_gathered() {
        None => QuietResult::Quiet,
        Some(pieces) => {
            if asked.put_items(&pieces, work.line(code, line)) {
                put_ask(stop);
                QuietResult::Stops
            } else {
                QuietResult::Quiet
            }
        }
    }
}
