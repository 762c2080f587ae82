// Switches between executions. Each but `switch_to` answers the fault, if it is one; then all stays as it is. Each of these public calls is a
// private one with the same two clauses, from which what it is in the source follows.

ghost use Rattle.std.specs.Prelude.{◌≡◌, Some, None, MatchOption};
ghost use Rattle.uc_machine.specs.declared.exec.Stage.TheVariants.{Started};
ghost use Rattle.uc_tree.specs.Source.{Source};
ghost use Rattle.uc_machine.specs.Executions.{parked_at};
ghost use Rattle.uc_machine.specs.Quiet.{State};
ghost use Rattle.uc_machine.specs.Switches.{able as able_in, escape as escape_of, finish as finish_of, suspend as suspend_of, switched, take_down as take_down_of, taken_down as taken_down_of, wake as wake_of, wake_one as wake_one_of};
ghost use Rattle.uc_code.specs.Layout.{Laid};
ghost use Rattle.uc_code.specs.declared.rows.MainOf.TheVariants as main_of;
ghost use Rattle.uc_frames.specs.Machine.{own_exec, resumed};
ghost use Rattle.uc_frames.specs.SwitchStands.{Resumes, Suspends, TakesDown, EndsCoroutine};
ghost use Rattle.uc_frames.specs.UnwindingStands.{EndsMain};
ghost use Rattle.uc_coroutine.specs.Switching.{fault_in, state_in, left_by, SwitchedAs};

use uc_entry::fault::RunFault;
use uc_frames::work::Work;
use uc_machine::exec::{Exec, Stage, UnwindReason};

/// The running execution stops where it is, and this one goes on, which may be activated: it is in hand, and its main has begun and not
/// ended. Nothing else changes.
pub fn switch_to(work: &mut Work, to: Exec)
    requires able { (x : _) × (parked_at to work.old.env ≡ Some x) × (x.links.stage ≡ Started) }
    ensures state { (x : _) → parked_at to work.old.env ≡ Some x →
        work.new ≡ switched to x work.old }
    ensures runs { work.new.env.exec ≡ to }
{
    work.activate(to);
}

/// The running execution resumes the one of the coroutine whose member runs. Answers the fault, if it is one; then all stays as it is.
pub fn resume(work: &mut Work) -> Option<RunFault>
    ensures fault { result ≡ fault_in (wake_of (resumed work.old) work.old) }
    ensures state { work.new ≡ state_in work.old (wake_of (resumed work.old) work.old) }
    ensures source { (source : Source) (code : Laid) (s : State) → Resumes code work.old s →
        SwitchedAs source code result work.new s }
{
    let fault = wake_own(work);
    fault
}

/// The running execution is suspended: its last resumer goes on. Answers the fault, if it is one; then all stays as it is.
pub fn suspend(work: &mut Work) -> Option<RunFault>
    ensures fault { result ≡ fault_in (suspend_of work.old) }
    ensures state { work.new ≡ state_in work.old (suspend_of work.old) }
    ensures source { (source : Source) (code : Laid) (s : State) → Suspends code work.old s →
        SwitchedAs source code result work.new s }
{
    let fault = yield_to_resumer(work);
    fault
}

/// The main of a coroutine ends: its starter goes on, if that may be activated, or else its last resumer. Answers the fault, if it is one;
/// then all stays as it is.
pub fn finish(work: &mut Work) -> Option<RunFault>
    ensures fault { result ≡ fault_in (finish_of work.old) }
    ensures state { work.new ≡ state_in work.old (finish_of work.old) }
    ensures source { (source : Source) (code : Laid) (s : State) → EndsCoroutine code work.old s →
        SwitchedAs source code result work.new s }
{
    let fault = end(work);
    fault
}

/// The destruction of the coroutine at hand begins: it is live no more, and is unwound if its main has begun and not ended.
pub fn take_down(work: &mut Work)
    ensures fault { None ≡ fault_in (take_down_of (own_exec work.old) work.old) }
    ensures state { work.new ≡ state_in work.old (take_down_of (own_exec work.old) work.old) }
    ensures source { (source : Source) (code : Laid) (s : State) → TakesDown code work.old s →
        SwitchedAs source code None work.new s }
{
    unwind_own(work);
}

/// The main of a coroutine is left, which is unwound: by a return it ends; where the coroutine is destroyed, who destroys it goes on; an
/// event is thrown as another one where its last resumer stands.
pub fn leave_main(work: &mut Work) -> Option<RunFault>
    ensures fault { result ≡ fault_in (left_by work.old.run.raised work.old) }
    ensures state { work.new ≡ state_in work.old (left_by work.old.run.raised work.old) }
    ensures source { (source : Source) (code : Laid) (s : State) →
        EndsMain code main_of.Coroutine work.old s → SwitchedAs source code result work.new s }
{
    let fault = leave_by_reason(work);
    fault
}

fn wake_own(work: &mut Work) -> Option<RunFault>
    ensures fault { result ≡ fault_in (wake_of (resumed work.old) work.old) }
    ensures state { work.new ≡ state_in work.old (wake_of (resumed work.old) work.old) }
{
    let fault = wake(work, work.resumed());
    fault
}

fn wake(work: &mut Work, to: Option<Exec>) -> Option<RunFault>
    ensures fault { result ≡ fault_in (wake_of to work.old) }
    ensures state { work.new ≡ state_in work.old (wake_of to work.old) }
{
    if work.destroyer().is_some() {
        return Some(RunFault::SwitchInUnwind);
    }
    match to {
        None => Some(RunFault::ResumeEnded),
        Some(exec) => wake_one(work, exec),
    }
}

fn wake_one(work: &mut Work, to: Exec) -> Option<RunFault>
    ensures fault { result ≡ fault_in (wake_one_of (Some to) work.old) }
    ensures state { work.new ≡ state_in work.old (wake_one_of (Some to) work.old) }
{
    if work.runs(to) {
        return Some(RunFault::ResumeInUse);
    }
    match work.stage(to) {
        None => Some(RunFault::ResumeEnded),
        Some(stage) => match stage {
            Stage::Fresh | Stage::Started => {
                work.wake(to);
                None
            }
            Stage::Ended => Some(RunFault::ResumeEnded),
        },
    }
}

// Who may be activated, if it may: one in hand that has begun and not ended.
fn able(work: &Work, exec: Option<Exec>) -> Option<Exec>
    ensures { MatchOption result (able_in exec work.now.env ≡ None) (λ n. (x : _)
        × (able_in exec work.now.env ≡ Some (n, x)) × (parked_at n work.now.env ≡ Some x)
        × (x.links.stage ≡ Started)) }
{
    match exec {
        None => None,
        Some(exec) => match work.stage(exec) {
            None => None,
            Some(stage) => match stage {
                Stage::Started => Some(exec),
                Stage::Fresh | Stage::Ended => None,
            },
        },
    }
}

fn yield_to_resumer(work: &mut Work) -> Option<RunFault>
    ensures fault { result ≡ fault_in (suspend_of work.old) }
    ensures state { work.new ≡ state_in work.old (suspend_of work.old) }
{
    if work.destroyer().is_some() {
        return Some(RunFault::SwitchInUnwind);
    }
    match able(work, work.resumer()) {
        None => Some(RunFault::SuspendWithoutResumer),
        Some(exec) => {
            switch_to(work, exec);
            None
        }
    }
}

fn end(work: &mut Work) -> Option<RunFault>
    ensures fault { result ≡ fault_in (finish_of work.old) }
    ensures state { work.new ≡ state_in work.old (finish_of work.old) }
{
    let next = match able(work, work.starter()) {
        Some(exec) => Some(exec),
        None => able(work, work.resumer()),
    };
    match next {
        None => Some(RunFault::SuspendWithoutResumer),
        Some(exec) => {
            work.end();
            switch_to(work, exec);
            None
        }
    }
}

fn unwind_own(work: &mut Work)
    ensures fault { None ≡ fault_in (take_down_of (own_exec work.old) work.old) }
    ensures state { work.new ≡ state_in work.old (take_down_of (own_exec work.old) work.old) }
{
    if let Some(exec) = work.own_exec() {
        unwind_one(work, exec);
    }
}

fn unwind_one(work: &mut Work, exec: Exec)
    ensures fault { None ≡ fault_in (take_down_of (Some exec) work.old) }
    ensures state { work.new ≡ state_in work.old (take_down_of (Some exec) work.old) }
{
    match work.stage(exec) {
        None => {}
        Some(stage) => match stage {
            Stage::Started => {
                work.take_down(exec);
            }
            Stage::Fresh | Stage::Ended => {
                work.set_live(exec, false);
            }
        },
    }
}

fn leave_by_reason(work: &mut Work) -> Option<RunFault>
    ensures fault { result ≡ fault_in (left_by work.old.run.raised work.old) }
    ensures state { work.new ≡ state_in work.old (left_by work.old.run.raised work.old) }
{
    match work.raised() {
        None => escape(work),
        Some(why) => match why {
            UnwindReason::Event { .. } => escape(work),
            UnwindReason::ReturnTo(_) => end(work),
            UnwindReason::Destroyed => go_back(work),
        },
    }
}

// An event has left the main.
fn escape(work: &mut Work) -> Option<RunFault>
    ensures fault { result ≡ fault_in (escape_of work.old) }
    ensures state { work.new ≡ state_in work.old (escape_of work.old) }
{
    match able(work, work.resumer()) {
        None => Some(RunFault::SuspendWithoutResumer),
        Some(exec) => {
            work.end();
            work.throw_at(exec);
            None
        }
    }
}

// Who destroys the coroutine goes on.
fn go_back(work: &mut Work) -> Option<RunFault>
    ensures fault { result ≡ fault_in (taken_down_of work.old) }
    ensures state { work.new ≡ state_in work.old (taken_down_of work.old) }
{
    match able(work, work.destroyer()) {
        None => Some(RunFault::SuspendWithoutResumer),
        Some(exec) => {
            work.end();
            switch_to(work, exec);
            None
        }
    }
}
