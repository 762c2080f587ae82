// The judge: the run is made again, act by act, and each act is compared with the journal.

ghost use Rattle.std.specs.Prelude.{ℕ, suc, ◌∷◌, ◌≡◌, ◌≤◌, ◌<◌, ◌+◌, ◌^◌, nat_le, drop, true, false, IfOk, OnOk, IfSome, IfNone, List, length};
ghost use Rattle.uc_tree.specs.Programs.{Site};
ghost use Rattle.uc_tree.specs.declared.limits.TheConstants.{INPUT_BYTES};
ghost use Rattle.uc_acts.specs.Journal.{begin, is_over};
ghost use Rattle.uc_acts.specs.KernelRuns.{InRange};
ghost use Rattle.uc_entry.specs.declared.entry.Entry.{Entry};
ghost use Rattle.uc_entry.specs.declared.entry.Options.{Options};
ghost use Rattle.uc_acts.specs.Acts.{lone_limit};
ghost use Rattle.uc_judge.specs.Changes.{told_of};
ghost use Rattle.uc_judge.specs.Ledgers.{IsLedger};
ghost use Rattle.uc_judge.specs.Narrow.{IsTold};
ghost use Rattle.uc_judge.specs.Runs.{lined, cause_of, IsVerdict};
ghost use Rattle.uc_judge.specs.Walks.{IsReady, Stands, Comes, Keeps, MayGive, MayStop, IsNext, is_dispatch, ended};
ghost use Rattle.std.specs.List.{All};

use crate::actor::{Actor, begin, dispatch};
use crate::asks::Asks;
use crate::comparing::{first_other, is_written, options_of};
use crate::counts::is_ending;
use crate::ledger::Ledger;
use crate::telling::tell;
use crate::verdict::Verdict;
use std::alloc::{AllocError, Global};
use uc_entry::entry::{Entry, EntryKind, Options};
use uc_tree::site::Site;

/// Whether a journal, with lines or without, is a run of these tasks, in a program with these accept statements and on this input.
/// The options are those that its first entry tells.
pub fn judge<A: Asks + Drop>(
    alloc: Global,
    sites: &[Site],
    input: &[u8],
    first: A,
    journal: &[Entry],
    lines: bool,
) -> Result<Verdict, AllocError>
    requires short { length input.now ≤ INPUT_BYTES }
    ensures { IfOk result (λ v. IsVerdict
        (cause_of A.asks A.told first sites.now input.now lines) journal.now v) }
{
    match options_in(journal, lines) {
        Some(opts) => {
            let mut tasks = first;
            let mut ledger = Ledger::new(alloc, opts)?;
            ledger.add(sites, begin(&opts))?;
            tell(&mut tasks, sites, &begin(&opts))?;
            let verdict = walk(&mut ledger, &mut tasks, sites, input, journal, lines)?;
            Ok(verdict)
        }
        None => Ok(Verdict::No { entry: 0 }),
    }
}

// The options with which a journal begins.
fn options_in(journal: &[Entry], lines: bool) -> Option<Options>
    ensures range { IfSome result (λ opts. InRange opts) }
    ensures begins { IfSome result (λ opts. journal.now
        ≡ lined lines (begin opts) ∷ drop 1 journal.now) }
    ensures none { IfNone result ((opts : Options) (rest : List Entry) → InRange opts →
        journal.now ≡ lined lines (begin opts) ∷ rest → ⊥) }
{
    match journal.first() {
        Some(e) => options_of(e, lines),
        None => None,
    }
}

// The rest of a journal that stands so far.
fn walk<A: Asks>(
    ledger: &mut Ledger,
    tasks: &mut A,
    sites: &[Site],
    input: &[u8],
    journal: &[Entry],
    lines: bool,
) -> Result<Verdict, AllocError>
    requires ready { IsReady ledger.old sites.now }
    requires short { length input.now ≤ INPUT_BYTES }
    ensures { IfOk result (λ v. (first : A) →
        Stands (cause_of A.asks A.told first sites.now input.now lines) ledger.old tasks.old
        journal.now →
        IsVerdict (cause_of A.asks A.told first sites.now input.now lines) journal.now v) }
{
    while ledger.entries.len() < journal.len() {
        match step(ledger, tasks, sites, input, journal, lines)? {
            Some(verdict) => return Ok(verdict),
            None => {}
        }
    }
    Ok(Verdict::No {
        entry: ledger.entries.len() as u32,
    })
}

// The next act of a journal, which has an entry for it.
fn step<A: Asks>(
    ledger: &mut Ledger,
    tasks: &mut A,
    sites: &[Site],
    input: &[u8],
    journal: &[Entry],
    lines: bool,
) -> Result<Option<Verdict>, AllocError>
    requires ready { IsReady ledger.old sites.now }
    requires short { length input.now ≤ INPUT_BYTES }
    requires more { length ledger.old.entries.items < length journal.now }
    ensures comes { IfOk result (λ v. (first : A) →
        Stands (cause_of A.asks A.told first sites.now input.now lines) ledger.old tasks.old
        journal.now →
        Comes (cause_of A.asks A.told first sites.now input.now lines) ledger.new tasks.new
        journal.now v) }
    ensures keeps { IfOk result (λ v. Keeps ledger.old ledger.new sites.now v) }
{
    let from = ledger.entries.len();
    let e = ledger.next_in(journal);
    if is_dispatch(e.kind) {
        if !ledger.may_give(&e, lines) {
            return Ok(Some(Verdict::No { entry: from as u32 }));
        }
        ledger.add(sites, dispatch(e.proc, e.task))?;
        return Ok(None);
    }
    if ledger.may_stop(&e, lines) {
        ledger.stop(NOBODY, EntryKind::Limit)?;
        return Ok(Some(ledger.ended(journal)));
    }
    match ledger.schedule.only_running(e.proc) {
        Some(task) => {
            let comes = follow(ledger, tasks, sites, input, e.proc, task, journal, lines)?;
            Ok(comes)
        }
        None => Ok(Some(Verdict::No { entry: from as u32 })),
    }
}

// The act of the task that runs on the processor of the next entry.
fn follow<A: Asks>(
    ledger: &mut Ledger,
    tasks: &mut A,
    sites: &[Site],
    input: &[u8],
    processor: u8,
    task: u32,
    journal: &[Entry],
    lines: bool,
) -> Result<Option<Verdict>, AllocError>
    requires ready { IsReady ledger.old sites.now }
    requires short { length input.now ≤ INPUT_BYTES }
    requires more { length ledger.old.entries.items < length journal.now }
    requires next { IsNext lines ledger.old journal.now processor task }
    ensures comes { IfOk result (λ v. (first : A) →
        Stands (cause_of A.asks A.told first sites.now input.now lines) ledger.old tasks.old
        journal.now →
        Comes (cause_of A.asks A.told first sites.now input.now lines) ledger.new tasks.new
        journal.now v) }
    ensures keeps { IfOk result (λ v. Keeps ledger.old ledger.new sites.now v) }
{
    let from = ledger.entries.len();
    let quantum = ledger.tasks.left(task);
    match tasks.ask(task, quantum)? {
        Some(walked) => {
            let actor = Actor {
                processor,
                task,
                ticks: walked.ticks,
                line: walked.asked.line,
            };
            ledger.act(sites, input, actor, &walked.asked.request)?;
            let made = ledger.behind(from);
            match first_other(made, &journal[from..], lines) {
                Some(n) => Ok(Some(Verdict::No {
                    entry: (from + n) as u32,
                })),
                None => {
                    if has_ending(made) {
                        return Ok(Some(ledger.ended(journal)));
                    }
                    tell_all(tasks, sites, made)?;
                    Ok(None)
                }
            }
        }
        None => Ok(Some(Verdict::No { entry: from as u32 })),
    }
}

// Tells tasks of all that these entries change.
fn tell_all<A: Asks>(tasks: &mut A, sites: &[Site], entries: &[Entry]) -> Result<(), AllocError>
    requires { All IsTold entries.now }
    ensures { OnOk result (tasks.new ≡ told_of A.told sites.now tasks.old entries.now) }
{
    for e in entries {
        tell(tasks, sites, e)?;
    }
    Ok(())
}

// Whether an entry gives a processor a task.
fn is_dispatch(kind: EntryKind) -> bool
    ensures { result ≡ is_dispatch kind }
{
    matches!(kind, EntryKind::Dispatch)
}

// Whether a run ends with these entries.
#[tactic(auto, unfolding(uc_acts::specs::Journal::is_over))]
fn has_ending(entries: &[Entry]) -> bool
    ensures { result ≡ is_over entries.now }
{
    entries.iter().any(|e| is_ending(e.kind))
}

// In whose name the limit stands, where it takes the place of a dispatch.
const NOBODY: Actor = Actor {
    processor: 0,
    task: 0,
    ticks: 0,
    line: 0,
};

// The limit in place of a dispatch.
fn lone_limit() -> Entry
    ensures { result ≡ lone_limit }
{
    NOBODY.ending(EntryKind::Limit)
}

impl Ledger {
    // Whether an entry is a dispatch that may follow.
    fn may_give(&self, e: &Entry, lines: bool) -> bool
        ensures yes { result ≡ true → (sites : List Site) → IsLedger self.now sites →
            MayGive lines self.now e.now e.now.proc e.now.task }
        ensures no { result ≡ false → (sites : List Site) → IsLedger self.now sites → (p t : ℕ) →
            MayGive lines self.now e.now p t → ⊥ }
    {
        if !is_written(&dispatch(e.proc, e.task), e, lines) {
            return false;
        }
        if !self.has_room_for_two() {
            return false;
        }
        self.serves(e.proc, e.task)
    }

    // Whether an entry is the limit in place of a dispatch.
    fn may_stop(&self, e: &Entry, lines: bool) -> bool
        ensures yes { result ≡ true → (sites : List Site) → IsLedger self.now sites →
            MayStop lines self.now e.now }
        ensures no { result ≡ false → (sites : List Site) → IsLedger self.now sites →
            MayStop lines self.now e.now → ⊥ }
    {
        if !is_written(&lone_limit(), e, lines) {
            return false;
        }
        if self.has_room_for_two() {
            return false;
        }
        self.serves_any()
    }

    // The entry of a journal with which it goes on.
    fn next_in(&self, journal: &[Entry]) -> Entry
        requires { length self.now.entries.items < length journal.now }
        ensures { drop (length self.now.entries.items) journal.now
            ≡ result ∷ drop (suc (length self.now.entries.items)) journal.now }
    {
        journal[self.entries.len()]
    }

    // The entries from a number on.
    fn behind(&self, from: usize) -> &[Entry]
        requires { from ≤ length self.now.entries.items }
        ensures { result.now ≡ drop from self.now.entries.items }
    {
        &self.entries[from..]
    }

    // Whether two more entries fit.
    fn has_room_for_two(&self) -> bool
        ensures { result ≡ nat_le (length self.now.entries.items + 2) self.now.opts.entries }
    {
        self.entries.len() + 2 <= self.opts.entries as usize
    }

    // The answer where the run has ended: no entry may follow.
    fn ended(&self, journal: &[Entry]) -> Verdict
        requires { length self.now.entries.items < 2 ^ 32 }
        ensures { result ≡ ended self.now journal.now }
    {
        if self.entries.len() < journal.len() {
            return Verdict::No {
                entry: self.entries.len() as u32,
            };
        }
        Verdict::Yes
    }
}
