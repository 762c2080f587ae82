// Checks a program, lowers it and runs it.

ghost use Rattle.std.specs.Prelude.{◌≡◌, ◌+◌, ◌*◌, ◌≤◌, ◌++◌, [], IfOk, IfErr, length};
ghost use Rattle.uc_tree.specs.Source.{Source};
ghost use Rattle.uc_tree.specs.Sizes.{program_size};
ghost use Rattle.uc_tree.specs.declared.limits.TheConstants.{INPUT_BYTES, MAKE_MAX, OPS_FOR_SIZE};
ghost use Rattle.uc_resolve.specs.Resolve.{source_of};
ghost use Rattle.uc_rules.specs.Breaks.{breaks_of};
ghost use Rattle.uc_sound.specs.SoundFormed.{IsFormed};
ghost use Rattle.uc_top.specs.Accepted.{IsAccepted};
ghost use Rattle.uc_code.specs.Layout.{laid_of};
ghost use Rattle.uc_code.specs.Pace.{IsPaced};
ghost use Rattle.uc_code.specs.Listing.{listing_of};
ghost use Rattle.uc_code.specs.Lowered.{Lowered};
ghost use Rattle.uc_lower_stmt.specs.SourceRows.{source_rows};
ghost use Rattle.uc_lower.specs.RowRanges.{HasRows};
ghost use Rattle.uc_acts.specs.Texts.{printed};
ghost use Rattle.uc_make.specs.Generated.{generated};
ghost use Rattle.uc_vproc.specs.Rest.{HasSource, IsSource};
ghost use Rattle.uc_vproc.specs.Runs.{IsRunOf};
ghost use Rattle.uc_top.specs.Commands.{ProgramRan, RunsNothing, told_text};
ghost use Rattle.uc_acts.specs.KernelRuns.{InRange};
ghost use Rattle.uc_top.specs.Decisions.{ProgramDid, ProgramRefused, HasEntries};

use crate::endings::{Ending, ending_of};
use crate::printing::printed_bytes;
use crate::refusals::Refusal;
use std::alloc::{AllocError, Global};
use std::sync::Wait;
use std::thread::Threads;
use uc_checked::checked::Checked;
use uc_code::code::Code;
use uc_code::listing::listing;
use uc_entry::entry::{Entry, Options};
use uc_journal::append_journal;
use uc_lower::lower::{LowerFault, lower};
use uc_lower::program_main::number_of_main;
use uc_make::make;
use uc_outside::Gate;
use uc_tree::name::Text;
use uc_vproc::run_processors;

/// The bytes of a line of a listing, at most.
pub const LINE_BYTES: usize = 64;

/// The journal of a run, what it prints, and how it ends.
#[derive(Drop)]
pub(crate) struct Run {
    pub journal: Vec<Entry>,
    pub output: Vec<u8>,
    pub ending: Ending,
}

/// What is to be done with an accepted program.
#[derive(Clone, Copy)]
pub enum Purpose {
    /// To run it under these options, and to give the journal's text behind the output or not.
    Run { opts: Options, journal: bool },
    /// To do nothing more.
    Check,
    /// To give the listing of its code.
    Lower,
}

/// What was done with a program that breaks no rule, or why it was not.
pub(crate) fn run_program<R: Threads + Wait + Sync, G: Gate + Sync>(
    rt: &R,
    gate: &G,
    alloc: Global,
    checked: &Checked,
    input: &[u8],
    purpose: Purpose,
) -> Result<Run, Refusal>
    requires unbroken { breaks_of checked.now ≡ [] }
    requires formed { IsFormed checked.now }
    requires input { length input.now ≤ INPUT_BYTES }
    requires purpose { HasEntries purpose }
    ensures ran { IfOk result (λ run. ProgramDid purpose checked.now input.now run.journal.items
        run.output.items run.ending) }
    ensures refused { IfErr result (ProgramRefused checked.now) }
{
    match lower(alloc, checked) {
        Ok(code) => {
            let ran = do_code(rt, gate, alloc, checked, &code, input, purpose);
            drop(code);
            match ran {
                Ok(run) => Ok(run),
                Err(_) => Err(Refusal::NoMemory),
            }
        }
        Err(LowerFault::FrameTooLarge { .. }) => Err(Refusal::FrameTooLarge),
        Err(LowerFault::CodeTooLarge { .. }) => Err(Refusal::CodeTooLarge),
        Err(LowerFault::NoMemory) => Err(Refusal::NoMemory),
    }
}

// What is done with the code of an accepted program.
fn do_code<R: Threads + Wait + Sync, G: Gate + Sync>(
    rt: &R,
    gate: &G,
    alloc: Global,
    checked: &Checked,
    code: &Code,
    input: &[u8],
    purpose: Purpose,
) -> Result<Run, AllocError>
    requires accepted { IsAccepted checked.now }
    requires formed { IsFormed checked.now }
    requires lowered { Lowered (source_of checked.now) code.now }
    requires paced { IsPaced (laid_of code.now) code.now.routines }
    requires few { length code.now.ops ≤ OPS_FOR_SIZE * program_size checked.now }
    requires count { length code.now.rows ≡ source_rows (source_of checked.now) }
    requires rows { HasRows code.now }
    requires input { length input.now ≤ INPUT_BYTES }
    requires purpose { HasEntries purpose }
    ensures { IfOk result (λ run. ProgramDid purpose checked.now input.now run.journal.items
        run.output.items run.ending) }
{
    match purpose {
        Purpose::Run { opts, journal } => {
            run_code(rt, gate, alloc, checked, code, input, opts, journal)
        }
        Purpose::Check => Ok(done_with(alloc, Vec::new(alloc))),
        Purpose::Lower => {
            let output = list_code(alloc, code)?;
            Ok(done_with(alloc, output))
        }
    }
}

// The listing of code. No line is known that is longer than it may be: one that were would be want of memory.
fn list_code(alloc: Global, code: &Code) -> Result<Vec<u8>, AllocError>
    ensures text { IfOk result (λ output. output.items ≡ listing_of code.now) }
    ensures short { IfOk result (λ output. length output.items
        ≤ LINE_BYTES * (length code.now.ops + length code.now.rows)) }
{
    let output = listing(alloc, code)?;
    let lines = code.ops().len() + code.rows().len();
    if output.len() > LINE_BYTES * lines {
        return Err(AllocError);
    }
    Ok(output)
}

/// What gives this output and runs nothing.
pub(crate) fn done_with(alloc: Global, output: Vec<u8>) -> Run
    ensures runs { RunsNothing result.journal.items result.ending }
    ensures output { result.output.items ≡ output.items }
{
    Run {
        journal: Vec::new(alloc),
        output,
        ending: Ending::Done,
    }
}

/// The generated program.
pub(crate) fn make_program(alloc: Global, n: u32) -> Result<Run, AllocError>
    requires least { 1 ≤ n }
    requires most { n ≤ MAKE_MAX }
    ensures runs { IfOk result (λ run. RunsNothing run.journal.items run.ending) }
    ensures output { IfOk result (λ run. run.output.items ≡ generated n) }
{
    let output = make(alloc, n)?;
    Ok(done_with(alloc, output))
}

// Runs a program.
fn run_code<R: Threads + Wait + Sync, G: Gate + Sync>(
    rt: &R,
    gate: &G,
    alloc: Global,
    checked: &Checked,
    code: &Code,
    input: &[u8],
    opts: Options,
    too: bool,
) -> Result<Run, AllocError>
    requires accepted { IsAccepted checked.now }
    requires formed { IsFormed checked.now }
    requires lowered { Lowered (source_of checked.now) code.now }
    requires paced { IsPaced (laid_of code.now) code.now.routines }
    requires input { length input.now ≤ INPUT_BYTES }
    requires options { InRange opts }
    ensures { IfOk result (λ run. ProgramRan checked.now input.now opts too run.journal.items
        run.output.items run.ending) }
{
    // There are fewer routines than bytes of a text.
    let program = checked.program();
    let Some(main) = number_of_main(&program.items) else {
        return Err(AllocError);
    };
    let journal = run_main(rt, gate, alloc, code, main, input, opts)?;
    let output = output_of(alloc, code.texts(), &journal, too)?;
    let ending = ending_of(&journal);
    Ok(Run {
        journal,
        output,
        ending,
    })
}

// Runs a main on a copy of this input.
fn run_main<R: Threads + Wait + Sync, G: Gate + Sync>(
    rt: &R,
    gate: &G,
    alloc: Global,
    code: &Code,
    main: u32,
    input: &[u8],
    opts: Options,
) -> Result<Vec<Entry>, AllocError>
    requires source { HasSource code.now main }
    requires range { InRange opts }
    requires small { length input.now ≤ INPUT_BYTES }
    requires paced { IsPaced (laid_of code.now) code.now.routines }
    ensures run { IfOk result (λ journal. (source : Source) → IsSource code.now main source →
        IsRunOf source input.now opts journal.items) }
{
    let mut bytes = Vec::with_capacity(alloc, input.len())?;
    bytes.extend_from_slice(input)?;
    run_processors(rt, alloc, code, main, bytes, opts, gate)
}

// What a journal prints, and behind it its text where that is asked for.
fn output_of(
    alloc: Global,
    texts: &[Text],
    journal: &[Entry],
    too: bool,
) -> Result<Vec<u8>, AllocError>
    ensures { IfOk result (λ output. output.items
        ≡ printed texts.now journal.now ++ told_text too journal.now) }
{
    let mut output = printed_bytes(alloc, texts, journal)?;
    if too {
        append_journal(&mut output, journal)?;
    }
    Ok(output)
}
