// The top call.

ghost use Rattle.std.specs.Prelude.{◌≢◌, map, string_bytes};
ghost use Rattle.uc_outside.specs.Reading.{KeepsFiles};
ghost use Rattle.uc_top.specs.Decisions.{Finished};
ghost use Rattle.uc_top.specs.Outcomes.{scene_of, Leaves, Causes, Stops, Answers, HaveRooms, Completes};
ghost use Rattle.uc_top.specs.JournalAnswers.{JournalAnswers};
ghost use Rattle.uc_top.specs.TextAnswers.{TextAnswers};

use crate::decide::decide;
use crate::endings::{Ending, put_ending};
use crate::program::Run;
use crate::refusals::{put_line, put_refusal};
use std::alloc::Global;
use std::sync::Wait;
use std::thread::Threads;
use uc_entry::entry::Entry;
use uc_outside::{Gate, Sink, SinkFault, Store, put_all};

/// What the program ends with: its status, and the journal of the run, which is empty where nothing was run.
#[derive(Drop)]
pub struct Outcome {
    pub status: u8,
    pub journal: Vec<Entry>,
}

/// Does all that the program does with these words: reads the named files, runs the program, puts
/// what it prints to `out` and the line of its ending or of a refusal to `err`.
///
/// Statuses: 0 done, 1 the text has no tokens, is no program, or is one that breaks a rule or is too
/// large, 2 the words are no line, 3 a file was not read, 4 a put failed, 5 a run fault, 6 a deadlock
/// or tasks that no processor serves, 7 the limit on entries or on ticks, 8 out of memory, or a test
/// that said no (that what is counted while code is made has numbers, that a listing is not too long,
/// or that what a task asks fits), 10 the text is no journal's. The order of work is: words, file,
/// input, tokens, program, rules, sizes, code, run, out, err; the first refusal decides.
pub fn run_words<R: Threads + Wait + Sync, S: Store, O: Sink, E: Sink, G: Gate + Sync>(
    rt: &R,
    alloc: Global,
    words: &[String],
    store: &mut S,
    out: &mut O,
    err: &mut E,
    gate: &G,
) -> Outcome
    ensures leaves { Leaves (scene_of (map string_bytes words.now) (S.state store.old)
        (S.state store.new) (O.state out.old) (O.state out.new) (E.state err.old) (E.state err.new))
        result.status result.journal.items }

    // What each status says of the words, the store, the sinks and the journal.
    ensures causes { Causes (scene_of (map string_bytes words.now) (S.state store.old)
        (S.state store.new) (O.state out.old) (O.state out.new) (E.state err.old) (E.state err.new))
        result.status result.journal.items }

    // No put is made to a sink after one of this call that failed.
    ensures stops { Stops (scene_of (map string_bytes words.now) (S.state store.old)
        (S.state store.new) (O.state out.old) (O.state out.new) (E.state err.old) (E.state err.new)) }

    // The store keeps its files and its steadiness, and its count does not fall.
    ensures store { KeepsFiles (S.state store.old) (S.state store.new) }

    // What the words and the store make of a call.
    ensures answers { Answers (scene_of (map string_bytes words.now) (S.state store.old)
        (S.state store.new) (O.state out.old) (O.state out.new) (E.state err.old) (E.state err.new))
        result.status }

    // A text that is refused gets just its refusal, with its place.
    ensures texts { TextAnswers (scene_of (map string_bytes words.now) (S.state store.old)
        (S.state store.new) (O.state out.old) (O.state out.new) (E.state err.old) (E.state err.new))
        result.status result.journal.items }

    // A journal is a run's, and what its last entry is and what the status is say of each other.
    ensures journals { JournalAnswers
        (scene_of (map string_bytes words.now) (S.state store.old) (S.state store.new)
        (O.state out.old) (O.state out.new) (E.state err.old) (E.state err.new)) result.status
        result.journal.items }

    // Sinks with room do not fail, and an accepted program is run where nothing fails.
    ensures rooms { HaveRooms (scene_of (map string_bytes words.now) (S.state store.old)
        (S.state store.new) (O.state out.old) (O.state out.new) (E.state err.old)
        (E.state err.new)) → result.status ≢ 4 }
    ensures completes { Completes (scene_of (map string_bytes words.now) (S.state store.old)
        (S.state store.new) (O.state out.old) (O.state out.new) (E.state err.old) (E.state err.new))
        result.status }
{
    let outcome = work(rt, alloc, words, store, out, err, gate);
    outcome
}

// Decides, and puts what there is to put.
fn work<R: Threads + Wait + Sync, S: Store, O: Sink, E: Sink, G: Gate + Sync>(
    rt: &R,
    alloc: Global,
    words: &[String],
    store: &mut S,
    out: &mut O,
    err: &mut E,
    gate: &G,
) -> Outcome
    ensures leaves { Leaves (scene_of (map string_bytes words.now) (S.state store.old)
        (S.state store.new) (O.state out.old) (O.state out.new) (E.state err.old) (E.state err.new))
        result.status result.journal.items }
    ensures store { KeepsFiles (S.state store.old) (S.state store.new) }
{
    match decide(rt, gate, alloc, words, store) {
        Ok(run) => {
            let status = put_run(out, err, &run.output, run.ending);
            let Run { journal, .. } = run;
            Outcome { status, journal }
        }
        Err(why) => {
            let journal = Vec::new(alloc);
            match put_refusal(err, why.refusal, why.name) {
                Ok(()) => Outcome {
                    status: why.refusal.status(),
                    journal,
                },
                Err(SinkFault::Failed) => Outcome { status: 4, journal },
            }
        }
    }
}

/// Puts what was printed and then the line of the ending, or where out failed a line that says so; answers the status.
pub(crate) fn put_run<O: Sink, E: Sink>(
    out: &mut O,
    err: &mut E,
    output: &[u8],
    ending: Ending,
) -> u8
    ensures { Finished (O.state out.old) (O.state out.new) (E.state err.old)
        (E.state err.new) output.now ending result }
{
    match put_all(out, output) {
        Ok(()) => match put_ending(err, ending) {
            Ok(()) => ending.status(),
            Err(SinkFault::Failed) => 4,
        },
        Err(SinkFault::Failed) => {
            let _told = put_line(err, b"cannot write", b"");
            4
        }
    }
}
