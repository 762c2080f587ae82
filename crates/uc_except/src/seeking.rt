// The search for the handler of an event.

ghost use Rattle.std.specs.Prelude.{◌≡◌, ◌∷◌, List, None, true, false, if◌then◌else◌};
ghost use Rattle.uc_machine.specs.Quiet.{Active};
ghost use Rattle.uc_machine.specs.Raising.{Event, seek};
ghost use Rattle.uc_code.specs.Layout.{chain, laid_of};
ghost use Rattle.uc_frames.specs.StandsByParts.{Lined};
ghost use Rattle.uc_frames.specs.UnwindingStands.{SearchStands};
ghost use Rattle.uc_except.specs.FoundAgrees.{FoundAs, CaughtAs, catcher};
ghost use Rattle.uc_frames.specs.declared.search.HandlerQuery.TheVariants as sought;
ghost use Rattle.uc_frames.specs.Searches.{first_in};
ghost use Rattle.uc_machine.specs.Executions.{at_depth};
ghost use Rattle.uc_except.specs.RowSearch.{caught, resumed, catch_in, resumption_in, handles_in};

use crate::found::Found;
use uc_code::code::Code;
use uc_frames::search::{HandlerQuery, first_handler, first_within};
use uc_frames::work::Work;
use uc_machine::exec::Visited;

/// The handler of an event that the running activation raises by the op before its next one. Where it is thrown, that is the first one that
/// catches it, from the innermost one outwards; where it is resumed, the first one that takes it so, and behind an activation that
/// handles a resumption itself only such as the search for that one has not come to.
pub fn propagate(code: &Code, work: &Work, event: u8, resume: bool) -> Found
    ensures rows { result
        ≡ (if resume then resumed code.now.rows None event (work.now.run ∷ work.now.callers) else caught code.now.rows event (work.now.run ∷ work.now.callers)) }
    ensures thrown { resume ≡ false → (e : Event) (acts : List Active) → e.number ≡ event → Lined (SearchStands (laid_of code.now)) (work.now.run ∷ work.now.callers) acts → CaughtAs (laid_of code.now) result (catcher e acts) }
    ensures resumed { resume ≡ true → (e : Event) (acts : List Active) → e.number ≡ event → Lined (SearchStands (laid_of code.now)) (work.now.run ∷ work.now.callers) acts → FoundAs (laid_of code.now) (work.now.run ∷ work.now.callers) result (seek None e acts) }
{
    let found = search(code, work, event, resume);
    found
}

fn search(code: &Code, work: &Work, event: u8, resume: bool) -> Found
    ensures { result
        ≡ (if resume then resumed code.now.rows None event (work.now.run ∷ work.now.callers) else caught code.now.rows event (work.now.run ∷ work.now.callers)) }
{
    if resume {
        resumption(code, work, event)
    } else {
        termination(code, work, event)
    }
}

/// The first handler of the running activation alone that catches an event.
pub fn catching_row(code: &Code, work: &Work, event: u8) -> Option<u32>
    ensures { result ≡ first_in (sought.Catch event) code.now.rows (chain code.now.rows work.now.run.control) }
{
    first_handler(code, work.next(), HandlerQuery::Catch(event))
}

fn termination(code: &Code, work: &Work, event: u8) -> Found
    ensures { result ≡ caught code.now.rows event (work.now.run ∷ work.now.callers) }
{
    let mut left = u64::from(work.level()) + 1;
    while 0 < left {
        let level = (left - 1) as u32;
        match catch_at(code, work, level, event) {
            Some(row) => return Found::Handler { frame: level, row },
            None => {}
        }
        left -= 1;
    }
    Found::None
}

// The row of the activation with so many below it that catches an event.
fn catch_at(code: &Code, work: &Work, level: u32, event: u8) -> Option<u32>
    ensures { result ≡ catch_in code.now.rows event (at_depth (work.now.run ∷ work.now.callers) level) }
{
    match work.activation(level) {
        None => None,
        Some(active) => first_handler(code, active.head.next, HandlerQuery::Catch(event)),
    }
}

// Behind an activation that handles a resumption the search goes on at the level of its handler, among those outwards of it.
fn resumption(code: &Code, work: &Work, event: u8) -> Found
    ensures { result ≡ resumed code.now.rows None event (work.now.run ∷ work.now.callers) }
{
    let mut left = u64::from(work.level()) + 1;
    let mut rest = None;
    while 0 < left {
        let level = (left - 1) as u32;
        match resumption_at(code, work, level, rest, event) {
            Some(row) => return Found::Handler { frame: level, row },
            None => {}
        }
        match handles_at(work, level) {
            None => {
                left -= 1;
                rest = None;
            }
            Some(visited) => {
                if level <= visited.level {
                    return Found::None;
                }
                left = u64::from(visited.level) + 1;
                rest = Some(visited.rest);
            }
        }
    }
    Found::None
}

// The row of the activation with so many below it that takes a resumption, of all its handlers or within so many.
fn resumption_at(code: &Code, work: &Work, level: u32, rest: Option<u32>, event: u8) -> Option<u32>
    ensures { result
        ≡ resumption_in code.now.rows rest event (at_depth (work.now.run ∷ work.now.callers) level) }
{
    match work.activation(level) {
        None => None,
        Some(active) => match rest {
            None => first_handler(code, active.head.next, HandlerQuery::Resume(event)),
            Some(rest) => first_within(code, active.head.next, rest, HandlerQuery::Resume(event)),
        },
    }
}

// What the activation with so many below it handles.
fn handles_at(work: &Work, level: u32) -> Option<Visited>
    ensures { result ≡ handles_in (at_depth (work.now.run ∷ work.now.callers) level) }
{
    match work.activation(level) {
        None => None,
        Some(active) => active.handles,
    }
}
