// The stack of one execution.

ghost use Rattle.std.specs.Prelude.{◌≡◌, ◌<◌, ◌≤◌, ◌+◌, ◌∷◌, ◌++◌, ◌^◌, [], All, List, length, take, nat_lt, None, Some, IfOk, OnOk, OnErr, MatchOption, true, false};
ghost use Rattle.uc_machine.specs.Executions.{at_depth};
ghost use Rattle.uc_machine.specs.Switches.{unwound_there};
ghost use Rattle.uc_frames.specs.declared.cell.Cell.{Cell};
ghost use Rattle.uc_frames.specs.Block.{completed, Told, call_made, call_left, handler_made, unwound_back};
ghost use Rattle.uc_frames.specs.BareReturns.{call_over};
ghost use Rattle.uc_frames.specs.Machine.{first_execution};
ghost use Rattle.uc_frames.specs.PassedAlike.{unwound_alike};
ghost use Rattle.uc_frames.specs.Calls.{call_below, plain_call};
ghost use Rattle.uc_frames.specs.Unwinding.{IsCaller};
ghost use Rattle.uc_tree.specs.declared.limits.TheConstants.{CALLS};

use crate::active::Activation;
use crate::block::Block;
use crate::call::Call;
use crate::cell::Cell;
use crate::event::HandlerStart;
use crate::links::Links;
use std::alloc::{AllocError, Global};
use std::marker::Model;
use uc_code::rows::RoutineCode;
use uc_machine::exec::UnwindReason;

/// An execution: its newest activation, those that wait for it, the oldest first, its frames and operands in one block, and its
/// links. What a call leaves behind is used by the next, so that a call takes memory only where no call before it left enough: behind
/// as many callers as wait stand activations that have ended.
#[derive(Drop)]
pub struct Stack {
    pub(crate) run: Activation,
    pub(crate) callers: Vec<Activation>,
    pub(crate) block: Block,
    pub(crate) links: Links,
}

impl Model for Stack {
    ghost use Rattle.std.specs.Prelude.{ℕ, ◌≡◌, ◌<◌, ◌≤◌, ◌^◌, All, length, reverse, take};
    ghost use Rattle.uc_machine.specs.Executions.{Execution};
    ghost use Rattle.uc_frames.specs.declared.cell.Cell.{Cell};
    ghost use Rattle.uc_frames.specs.Block.{completed, all_completed, Told};

    ghost Value = { Execution ℕ Cell };

    ghost view = { λ s. record { run = completed s.run s.block.operands; callers = all_completed (reverse (take (length s.block.waiting) s.callers.items)) s.block.waiting; frames = s.block.frames; links = s.links } };

    ghost invariant = { λ s. (length s.callers.items < 2 ^ 32) × (length s.block.waiting ≤ length s.callers.items) × Told s.run × All Told s.callers.items };
}

impl Stack {
    // An execution as it begins, with one frame, for this object.
    pub(crate) fn first(
        alloc: Global,
        routine: RoutineCode,
        this: Cell,
    ) -> Result<Stack, AllocError>
        ensures { IfOk result (λ s. s ≡ first_execution routine this) }
    {
        let block = Block::first(alloc, routine.cells)?;
        Ok(Stack {
            run: Activation::new(routine.entry, this, 0, false),
            callers: Vec::new(alloc),
            block,
            links: Links::new(alloc),
        })
    }

    // The activation that has so many below it.
    pub(crate) fn activation(&self, level: u32) -> Option<&Activation>
        ensures { MatchOption result (at_depth (self.now.run ∷ self.now.callers) level ≡ None)
            (λ a. (os : List Cell) × (at_depth (self.now.run ∷ self.now.callers) level ≡ Some (completed a.now os))) }
    {
        let waiting = self.block.waiting();
        let level = level as usize;
        if level < waiting {
            return Some(&self.callers[level]);
        }
        if level == waiting {
            return Some(&self.run);
        }
        None
    }

    // Whether an activation waits, and why it is unwound, if it is.
    pub(crate) fn caller(&self) -> Option<Option<UnwindReason>>
        ensures { MatchOption result (self.now.callers ≡ []) (λ why. IsCaller why self.now.callers) }
    {
        let waiting = self.block.waiting();
        if waiting == 0 {
            return None;
        }
        Some(self.callers[waiting - 1].raised)
    }

    // How many activations wait.
    #[inline(always)]
    pub(crate) fn level(&self) -> u32
        ensures { result ≡ length self.now.callers }
    {
        self.block.waiting() as u32
    }

    // Makes a call without an object, which counts, where that needs no more room and no more cells, and neither who calls nor what stands
    // in its place says anything exceptional. A part of who calls, so that what is known of the call there is not asked here. The answer is
    // whether it does not; else all stays as it is.
    #[inline(always)]
    pub(crate) fn enter_bare(&mut self, routine: RoutineCode) -> bool
        requires { self.old.links.calls < CALLS }
        ensures made { result ≡ true → self.new ≡ call_made (plain_call routine) self.old }
        ensures stays { result ≡ false → self.new ≡ self.old }
    {
        let depth = self.block.depth();
        let waiting = self.block.waiting();
        if !wait_at(&mut self.callers, waiting, &self.run) {
            return false;
        }
        if !self.block.enter_bare(routine) {
            return false;
        }
        self.run.begin_bare(routine.entry, depth as u32);
        self.links.enter(true);
        true
    }

    // The same of a call at the object below its arguments.
    #[inline(always)]
    pub(crate) fn enter_on(&mut self, routine: RoutineCode) -> bool
        requires { self.old.links.calls < CALLS }
        ensures made { result ≡ true → self.new ≡ call_made (call_below routine self.old.run.operands) self.old }
        ensures stays { result ≡ false → self.new ≡ self.old }
    {
        let depth = self.block.depth();
        let waiting = self.block.waiting();
        if !wait_at(&mut self.callers, waiting, &self.run) {
            return false;
        }
        if !self.block.enter_on(routine, &mut self.run.head.this) {
            return false;
        }
        self.run.begin_here(routine.entry, depth as u32);
        self.links.enter(true);
        true
    }

    // Makes a call, for which room is made where it needs more. Executions of `u32::MAX` frames make no more.
    #[inline(never)]
    pub(crate) fn enter(&mut self, call: Call) -> Result<(), AllocError>
        requires { call.counts ≡ true → self.old.links.calls < CALLS }
        ensures ok { OnOk result (self.new ≡ call_made call self.old) }
        ensures err { OnErr result (self.new ≡ self.old) }
    {
        let depth = self.block.depth();
        if depth >= u32::MAX as usize {
            return Err(AllocError);
        }
        let waiting = self.block.waiting();
        put_at(&mut self.callers, waiting, &self.run)?;
        self.block.enter(call.routine, call.taken)?;
        self.run
            .begin(call.routine.entry, call.this, depth as u32, call.counts);
        self.links.enter(call.counts);
        Ok(())
    }

    // The handler of a resumption begins on top, with an empty frame of its own.
    pub(crate) fn enter_handler(&mut self, handling: HandlerStart) -> Result<(), AllocError>
        ensures ok { OnOk result (self.new ≡ handler_made handling self.old) }
        ensures err { OnErr result (self.new ≡ self.old) }
    {
        if self.block.depth() >= u32::MAX as usize {
            return Err(AllocError);
        }
        let waiting = self.block.waiting();
        put_at(&mut self.callers, waiting, &self.run)?;
        self.block.enter_handler(handling.event)?;
        self.run = Activation::handler(handling);
        Ok(())
    }

    // The newest activation is left with its frame, and the one that waits for it goes on with what it is handed. The answer is
    // whether one waits.
    pub(crate) fn leave(&mut self, given: Cell) -> Result<bool, AllocError>
        ensures called { IfOk result (λ called. called ≡ nat_lt 0 (length self.old.callers)) }
        ensures after { OnOk result (self.new ≡ call_left given self.old.callers self.old) }
        ensures err { OnErr result (self.new ≡ self.old) }
    {
        let waiting = self.block.waiting();
        if waiting == 0 {
            return Ok(false);
        }
        self.block.leave(given)?;
        self.links.leave(self.run.head.counts);
        self.run.copy_from(&self.callers[waiting - 1]);
        Ok(true)
    }

    // The same, where that one is handed nothing.
    pub(crate) fn leave_bare(&mut self) -> bool
        ensures called { result ≡ nat_lt 0 (length self.old.callers) }
        ensures after { self.new ≡ call_over self.old.callers self.old }
    {
        let waiting = self.block.waiting();
        if waiting == 0 {
            return false;
        }
        self.block.leave_bare();
        self.links.leave(self.run.head.counts);
        self.run.copy_from(&self.callers[waiting - 1]);
        true
    }

    // The same, where the newest activation handles no resumption. Else the answer is false, and all stays as it is.
    #[inline(always)]
    pub(crate) fn give_back(&mut self) -> bool
        ensures over { result ≡ true → self.new ≡ call_over self.old.callers self.old }
        ensures called { result ≡ true → nat_lt 0 (length self.old.callers) ≡ true }
        ensures plain { result ≡ true → self.old.run.handles ≡ None }
        ensures stays { result ≡ false → self.new ≡ self.old }
    {
        let waiting = self.block.waiting();
        if waiting == 0 {
            return false;
        }
        let counts = self.run.head.counts;
        if !self.run.copy_plain(&self.callers[waiting - 1]) {
            return self.give_back_seldom();
        }
        self.block.leave_bare();
        self.links.leave(counts);
        true
    }

    // The same where something exceptional is said.
    #[cold]
    #[inline(never)]
    fn give_back_seldom(&mut self) -> bool
        ensures over { result ≡ true → self.new ≡ call_over self.old.callers self.old }
        ensures called { result ≡ true → nat_lt 0 (length self.old.callers) ≡ true }
        ensures plain { result ≡ true → self.old.run.handles ≡ None }
        ensures stays { result ≡ false → self.new ≡ self.old }
    {
        match self.run.handles {
            Some(_) => false,
            None => self.leave_bare(),
        }
    }

    // The newest activation is left with its frame, and the one that waits for it is unwound in its turn, for this reason and with
    // what a return that arrives hands over. The answer is whether one waits.
    pub(crate) fn leave_unwinding(&mut self, why: UnwindReason, given: Cell) -> bool
        ensures called { result ≡ nat_lt 0 (length self.old.callers) }
        ensures after { self.new ≡ unwound_back why given self.old.callers self.old }
    {
        let waiting = self.block.waiting();
        if waiting == 0 {
            return false;
        }
        self.block.leave_unwinding();
        self.links.leave(self.run.head.counts);
        self.run = self.callers[waiting - 1];
        self.run.head.is_exceptional = true;
        self.run.raised = Some(why);
        self.run.result = given;
        true
    }

    // The same, where that one is unwound as the one that is left.
    pub(crate) fn pass_unwinding(&mut self) -> bool
        ensures called { result ≡ nat_lt 0 (length self.old.callers) }
        ensures after { self.new ≡ unwound_alike self.old.callers self.old }
    {
        let waiting = self.block.waiting();
        if waiting == 0 {
            return false;
        }
        self.block.leave_unwinding();
        self.links.leave(self.run.head.counts);
        self.run.unwind_on(&self.callers[waiting - 1]);
        true
    }

    // Its newest activation is unwound for this reason, from where it stands.
    pub(crate) fn unwind(&mut self, why: UnwindReason)
        ensures { self.new ≡ unwound_there why self.old }
    {
        self.run.head.is_exceptional = true;
        self.run.raised = Some(why);
    }
}

// An activation waits at this place, behind those that wait there, where a place is there and nothing exceptional is said. The answer is
// whether it is so.
#[inline(always)]
fn wait_at(callers: &mut Vec<Activation>, at: usize, waiting: &Activation) -> bool
    requires place { at ≤ length callers.old.items }
    requires told { All Told callers.old.items }
    requires waits { Told waiting.now }
    ensures made { result ≡ true → take (at + 1) callers.new.items ≡ take at callers.old.items ++ waiting.now ∷ [] }
    ensures room { result ≡ true → at < length callers.new.items }
    ensures plain { result ≡ true → waiting.now.head.is_exceptional ≡ false }
    ensures below { take at callers.new.items ≡ take at callers.old.items }
    ensures len { length callers.new.items ≡ length callers.old.items }
    ensures told { All Told callers.new.items }
{
    if at < callers.len() {
        callers[at].copy_plain(waiting)
    } else {
        false
    }
}

// An activation waits at this place, behind those that wait there.
#[inline(always)]
fn put_at(callers: &mut Vec<Activation>, at: usize, waiting: &Activation) -> Result<(), AllocError>
    requires place { at ≤ length callers.old.items }
    requires told { All Told callers.old.items }
    requires waits { Told waiting.now }
    requires few { length callers.old.items < 2 ^ 32 }
    requires last { at + 1 < 2 ^ 32 }
    ensures few { length callers.new.items < 2 ^ 32 }
    ensures ok { OnOk result (take (at + 1) callers.new.items ≡ take at callers.old.items ++ waiting.now ∷ []) }
    ensures below { take at callers.new.items ≡ take at callers.old.items }
    ensures room { OnOk result (at < length callers.new.items) }
    ensures told { All Told callers.new.items }
    ensures err { OnErr result (callers.new.items ≡ callers.old.items) }
{
    if at < callers.len() {
        callers[at].copy_from(waiting);
    } else {
        add(callers, waiting)?;
    }
    Ok(())
}

// One more place for activations that wait, where this one does.
#[cold]
#[inline(never)]
fn add(callers: &mut Vec<Activation>, waiting: &Activation) -> Result<(), AllocError>
    ensures ok { OnOk result (callers.new.items ≡ callers.old.items ++ waiting.now ∷ []) }
    ensures err { OnErr result (callers.new.items ≡ callers.old.items) }
{
    callers.push(*waiting)?;
    Ok(())
}
