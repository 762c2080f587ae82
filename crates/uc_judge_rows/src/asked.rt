// What the tasks asked, read off a journal.

use std::alloc::{AllocError, Global};
use uc_entry::entry::{Entry, EntryKind};
use uc_entry::request::{Asked, Piece, Request};
use uc_judge::script::{Script, Step};

/// The script of a journal: what each of its tasks asked, in their order. A print of several items is as many prints.
pub(crate) fn script_of(alloc: Global, journal: &[Entry]) -> Result<Script, AllocError> {
    let mut steps = Vec::new(alloc);
    for e in journal {
        let request = match object_request(e) {
            Some(request) => Some(request),
            None => other_request(e),
        };
        if let Some(request) = request {
            steps.push(Step {
                task: e.task,
                ticks: e.ticks,
                asked: Asked {
                    request,
                    line: e.line,
                },
            })?;
        }
    }
    Ok(Script::new(steps))
}

// What a task asks of a mutex object by an entry.
fn object_request(e: &Entry) -> Option<Request> {
    let object = e.object;
    let cond = u16::try_from(e.a).unwrap_or(0);
    match e.kind {
        EntryKind::Make => Some(Request::Make { class: word(e.a) }),
        EntryKind::Made => Some(Request::Made { object }),
        EntryKind::Spawn => Some(Request::Spawn { object }),
        EntryKind::Call => Some(Request::Call {
            object,
            member: byte(e.a),
        }),
        EntryKind::Leave => Some(Request::Leave {
            object,
            failed: e.a == 1,
        }),
        EntryKind::Accept => Some(Request::Accept {
            object,
            site: word(e.a),
            mask: word(e.b),
        }),
        EntryKind::Wait => Some(Request::Wait {
            object,
            cond,
            n: e.b,
        }),
        EntryKind::Signal => Some(Request::Signal { object, cond }),
        EntryKind::SignalBlock => Some(Request::SignalBlock { object, cond }),
        EntryKind::Empty => Some(Request::Empty { object, cond }),
        EntryKind::Front => Some(Request::Front { object, cond }),
        EntryKind::Raise => Some(Request::Raise {
            object,
            event: byte(e.b),
            x: e.c,
            y: e.d,
        }),
        EntryKind::Gone => Some(Request::Gone { object }),
        _ => None,
    }
}

// What else a task asks by an entry.
fn other_request(e: &Entry) -> Option<Request> {
    match e.kind {
        EntryKind::Poll => Some(Request::Poll { mask: bits(e.b) }),
        EntryKind::Yield => Some(Request::Yield),
        EntryKind::Slice => Some(Request::Slice),
        EntryKind::Print => Some(one_print(byte(e.a), e.b)),
        EntryKind::Read => Some(Request::Read { form: byte(e.a) }),
        EntryKind::Fail => Some(Request::Fail),
        EntryKind::Cluster => Some(Request::Cluster),
        EntryKind::ClusterEnd => Some(Request::ClusterEnd { cluster: word(e.a) }),
        EntryKind::Processor => Some(Request::Processor { cluster: word(e.b) }),
        EntryKind::ProcessorEnd => Some(Request::ProcessorEnd {
            processor: word(e.a),
        }),
        EntryKind::Migrate => Some(Request::Migrate { cluster: word(e.a) }),
        EntryKind::End => Some(Request::End),
        EntryKind::Fault => Some(Request::Fault { number: byte(e.a) }),
        _ => None,
    }
}

// A print of one item.
fn one_print(form: u8, value: i64) -> Request {
    let mut items = [Piece { form: 0, value: 0 }; 32];
    items[0] = Piece { form, value };
    Request::Print { n: 1, items }
}

// The number of a field, 0 where it does not fit.

fn word(field: i64) -> u32 {
    u32::try_from(field).unwrap_or(0)
}

fn byte(field: i64) -> u8 {
    u8::try_from(field).unwrap_or(0)
}

// The bits of a field.
fn bits(field: i64) -> u64 {
    if field >= 0 {
        return field as u64;
    }
    u64::MAX - (-(field + 1)) as u64
}
