// The activations of the execution that runs: calls, their ends, handlers, and what events do to them.

ghost use Rattle.std.specs.Prelude.{◌≡◌, ◌-◌, ◌<◌, ◌∷◌, [], List, length, reverse, nat_lt, None, Some, IfOk, OnOk, OnErr, MatchOption, slice_get, true, false};
ghost use Rattle.uc_machine.specs.Executions.{at_depth, calmed};
ghost use Rattle.uc_machine.specs.Insides.{counted_no_more};
ghost use Rattle.uc_frames.specs.declared.cell.Cell.{Cell};
ghost use Rattle.uc_frames.specs.Block.{completed, all_completed};
ghost use Rattle.uc_frames.specs.BareReturns.{left_bare};
ghost use Rattle.uc_frames.specs.Machine.{line_in, line_at};
ghost use Rattle.uc_frames.specs.Calls.{left, called, object_call, plain_call};
ghost use Rattle.uc_frames.specs.Objects.{arrived_at};
ghost use Rattle.uc_frames.specs.PassedAlike.{passed_alike};
ghost use Rattle.uc_frames.specs.Unwinding.{IsCaller, unwound_by, cleaning, catching, passed, handled};
ghost use Rattle.uc_tree.specs.declared.limits.TheConstants.{CALLS};

use crate::active::Activation;
use crate::call::Call;
use crate::cell::Cell;
use crate::event::{Event, HandlerStart};
use crate::work::Work;
use std::alloc::AllocError;
use uc_code::code::Code;
use uc_code::rows::RoutineCode;
use uc_machine::exec::{UnwindReason, Visited};

impl Work {
    /// The next op.
    pub fn next(&self) -> u32
        ensures { result ≡ self.now.run.control }
    {
        self.task.running.run.head.next
    }

    /// Another op is next.
    pub fn set_next(&mut self, to: u32)
        ensures { self.new ≡ record self.old { run = record self.old.run { control = to } } }
    {
        self.task.running.run.head.next = to;
    }

    /// The object of the running activation.
    pub fn this(&self) -> Cell
        ensures { result ≡ self.now.run.this }
    {
        self.task.running.run.head.this
    }

    /// How many elements stand of the array that the running activation builds or destroys.
    pub fn elements(&self) -> u32
        ensures { result ≡ self.now.run.elements }
    {
        self.task.running.run.head.elements
    }

    /// So many elements stand.
    pub fn set_elements(&mut self, count: u32)
        ensures { self.new ≡ record self.old { run = record self.old.run { elements = count } } }
    {
        self.task.running.run.head.elements = count;
    }

    /// How many calls are active in the running execution.
    pub fn calls(&self) -> u32
        ensures { result ≡ self.now.env.links.calls }
    {
        self.task.running.links.calls
    }

    /// Makes a call: the newest operands are the routine's parameters.
    #[inline(never)]
    pub fn enter(&mut self, call: Call) -> Result<(), AllocError>
        requires { call.counts ≡ true → self.old.env.links.calls < CALLS }
        ensures ok { OnOk result (self.new ≡ called call self.old) }
        ensures err { OnErr result (self.new ≡ self.old) }
    {
        self.task.running.enter(call)?;
        Ok(())
    }

    /// Makes a call without an object, which counts: the newest operands are the routine's parameters.
    pub fn call(&mut self, routine: RoutineCode) -> Result<(), AllocError>
        requires { self.old.env.links.calls < CALLS }
        ensures ok { OnOk result (self.new ≡ called (plain_call routine) self.old) }
        ensures err { OnErr result (self.new ≡ self.old) }
    {
        self.task.running.enter(Call {
            routine,
            this: Cell::Nothing,
            taken: u64::from(routine.params),
            counts: true,
        })?;
        Ok(())
    }

    /// The same where that needs no more room and nothing exceptional is said, as most calls. The answer is whether it does not; else all
    /// stays as it is.
    #[inline(always)]
    pub fn call_in_place(&mut self, routine: RoutineCode) -> bool
        requires { self.old.env.links.calls < CALLS }
        ensures made { result ≡ true → self.new ≡ called (plain_call routine) self.old }
        ensures stays { result ≡ false → self.new ≡ self.old }
    {
        let made = self.task.running.enter_bare(routine);
        made
    }

    /// Makes a call at the object below its arguments, which counts or does not: the newest operands are the routine's parameters.
    pub fn call_on(&mut self, routine: RoutineCode, counts: bool) -> Result<(), AllocError>
        requires { counts ≡ true → self.old.env.links.calls < CALLS }
        ensures ok { OnOk result (self.new ≡ called (object_call routine counts self.old) self.old) }
        ensures err { OnErr result (self.new ≡ self.old) }
    {
        let this = self.below(routine.params);
        self.task.running.enter(Call {
            routine,
            this,
            taken: u64::from(routine.params) + 1,
            counts,
        })?;
        Ok(())
    }

    /// The same of one that counts, where that needs no more room and nothing exceptional is said.
    #[inline(always)]
    pub fn call_on_in_place(&mut self, routine: RoutineCode) -> bool
        requires { self.old.env.links.calls < CALLS }
        ensures made { result ≡ true → self.new ≡ called (object_call routine true self.old) self.old }
        ensures stays { result ≡ false → self.new ≡ self.old }
    {
        let made = self.task.running.enter_on(routine);
        made
    }

    /// The running activation is left with its frame, and the one that waits for it goes on with what it is handed. Where none
    /// waits, all stays as it is, and the answer is false.
    pub fn leave(&mut self, given: Cell) -> Result<bool, AllocError>
        ensures called { IfOk result (λ called. called ≡ nat_lt 0 (length self.old.callers)) }
        ensures after { OnOk result (self.new ≡ left given self.old.callers self.old) }
        ensures err { OnErr result (self.new ≡ self.old) }
    {
        let called = self.task.running.leave(given)?;
        Ok(called)
    }

    /// The same, where the one that waits is handed nothing. Where none waits, or the running activation handles a resumption, all stays as it
    /// is, and the answer is false.
    #[inline(always)]
    pub fn give_back(&mut self) -> bool
        ensures over { result ≡ true → self.new ≡ left_bare self.old.callers self.old }
        ensures called { result ≡ true → nat_lt 0 (length self.old.callers) ≡ true }
        ensures plain { result ≡ true → self.old.run.handles ≡ None }
        ensures stays { result ≡ false → self.new ≡ self.old }
    {
        let called = self.task.running.give_back();
        called
    }

    /// How many activations wait for the running one.
    pub fn level(&self) -> u32
        ensures { result ≡ length self.now.callers }
    {
        self.task.running.level()
    }

    /// The activation that has so many below it, but for its operands.
    pub fn activation(&self, level: u32) -> Option<&Activation>
        ensures { MatchOption result (at_depth (self.now.run ∷ self.now.callers) level ≡ None)
            (λ a. (os : List Cell) × (at_depth (self.now.run ∷ self.now.callers) level ≡ Some (completed a.now os))) }
    {
        self.task.running.activation(level)
    }

    /// The line of an op; for one of no line that of the newest call around it that has one.
    pub fn line(&self, code: &Code, line: u32) -> u32
        ensures { result ≡ line_at code.now.ops line self.now.callers }
    {
        let running = &*self.task.running;
        line_from(code, &running.callers[..running.block.waiting()], line)
    }

    /// The line of the op before the next one; of one of no line that of the newest call around it that has one.
    pub fn line_behind(&self, code: &Code) -> u32
        ensures { result ≡ line_at code.now.ops (line_in (slice_get code.now.ops (self.now.run.control - 1))) self.now.callers }
    {
        self.line(code, line_before(code, self.next()))
    }

    /// How far the search came, where the running activation handles a resumption.
    pub fn handles(&self) -> Option<Visited>
        ensures { result ≡ self.now.run.handles }
    {
        self.task.running.run.handles
    }

    /// Why the running activation is unwound, if it is.
    pub fn raised(&self) -> Option<UnwindReason>
        ensures { result ≡ self.now.run.raised }
    {
        self.task.running.run.raised
    }

    /// What a return that unwinds the running activation hands over.
    pub fn result(&self) -> Cell
        ensures { result ≡ self.now.run.result }
    {
        self.task.running.run.result
    }

    /// Whether an activation waits, and why it is unwound, if it is.
    pub fn caller(&self) -> Option<Option<UnwindReason>>
        ensures { MatchOption result (self.now.callers ≡ []) (λ why. IsCaller why self.now.callers) }
    {
        self.task.running.caller()
    }

    /// The running activation is unwound for this reason, from its place on; a return that arrives hands this over.
    pub fn unwind(&mut self, why: UnwindReason, given: Cell)
        ensures { self.new ≡ record self.old { run = unwound_by why given self.old.run } }
    {
        let running = &mut *self.task.running;
        running.block.drop_all();
        running.run.head.is_exceptional = true;
        running.run.raised = Some(why);
        running.run.result = given;
    }

    /// The unwinding of the running activation is over: it goes on at this op.
    pub fn end_unwinding(&mut self, to: u32)
        ensures { self.new ≡ record self.old { run = calmed to self.old.run } }
    {
        let running = &mut *self.task.running;
        running.block.drop_all();
        running.run.head.next = to;
        running.run.raised = None;
        running.run.head.is_exceptional = running.run.says_more();
    }

    /// A clean-up of the running activation begins at this op.
    pub fn begin_clean_up(&mut self, entry: u32)
        ensures { self.new ≡ record self.old { run = cleaning entry self.old.run } }
    {
        let running = &mut *self.task.running;
        running.block.drop_all();
        running.run.head.next = entry;
    }

    /// The handler at this op catches an event in the running activation.
    pub fn catch_event(&mut self, entry: u32, event: Event) -> Result<(), AllocError>
        ensures ok { OnOk result (self.new ≡ record self.old { run = catching entry event self.old.run }) }
        ensures err { OnErr result (self.new ≡ self.old) }
    {
        let running = &mut *self.task.running;
        running.block.put_event(event)?;
        running.run.head.next = entry;
        running.run.raised = None;
        running.run.head.is_exceptional = running.run.says_more();
        Ok(())
    }

    /// The running activation is left with its frame, and the one that waits for it is unwound in its turn, for this reason and
    /// with what a return that arrives hands over. Where none waits, all stays as it is, and the answer is false.
    pub fn leave_unwinding(&mut self, why: UnwindReason, given: Cell) -> bool
        ensures called { result ≡ nat_lt 0 (length self.old.callers) }
        ensures after { self.new ≡ passed why given self.old.callers self.old }
    {
        let called = self.task.running.leave_unwinding(why, given);
        called
    }

    /// The running activation is left with its frame, and the one that waits for it is unwound in its turn, for the same reason and with
    /// the same for a return that arrives. Where none waits, all stays as it is, and the answer is false.
    pub fn pass_unwinding(&mut self) -> bool
        ensures called { result ≡ nat_lt 0 (length self.old.callers) }
        ensures after { self.new ≡ passed_alike self.old.callers self.old }
    {
        let called = self.task.running.pass_unwinding();
        called
    }

    /// The handler of a resumption begins on top, with an empty frame of its own.
    pub fn enter_handler(&mut self, handling: HandlerStart) -> Result<(), AllocError>
        ensures ok { OnOk result (self.new ≡ handled handling self.old) }
        ensures err { OnErr result (self.new ≡ self.old) }
    {
        self.task.running.enter_handler(handling)?;
        Ok(())
    }

    /// The running activation is no active call any more.
    pub fn count_no_more(&mut self)
        ensures { self.new ≡ counted_no_more self.old }
    {
        let counts = self.task.running.run.head.counts;
        self.task.running.links.leave(counts);
        self.task.running.run.head.counts = false;
    }

    /// A return of a handler has arrived at the running mutex call, which goes on at this op with what that hands over.
    pub fn arrive(&mut self, to: u32) -> Result<(), AllocError>
        ensures ok { OnOk result (self.new ≡ record self.old { run = arrived_at to self.old.run }) }
        ensures err { OnErr result (self.new ≡ self.old) }
    {
        let running = &mut *self.task.running;
        running.block.replace_all(running.run.result)?;
        running.run.head.next = to;
        running.run.raised = None;
        running.run.head.is_exceptional = running.run.says_more();
        Ok(())
    }
}

// The line of an op, or of the newest of these calls that has one.
fn line_from(code: &Code, callers: &[Activation], line: u32) -> u32
    ensures { (os : List (List Cell)) → result ≡ line_at code.now.ops line (all_completed (reverse callers.now) os) }
{
    match callers.split_last() {
        None => line,
        Some((caller, outer)) => {
            if line == 0 {
                line_from(code, outer, line_before(code, caller.head.next))
            } else {
                line
            }
        }
    }
}

// The line of the op before this one, 0 where there is none.
fn line_before(code: &Code, next: u32) -> u32
    ensures { result ≡ line_in (slice_get code.now.ops (next - 1)) }
{
    match code.op(next.saturating_sub(1)) {
        None => 0,
        Some(instruction) => instruction.line,
    }
}
