// What may be asked for: objects, clusters and processors.
ghost use Rattle.std.specs.Prelude.{◌≡◌, ◌≤◌, ◌+◌, ◌<◌, ℕ, true, false, IfOk, IfSome, slice_index_or, vec_len, vec_capacity};
ghost use Rattle.uc_entry.specs.declared.request.Answer.TheVariants as answers;
ghost use Rattle.uc_vproc.specs.Registries.{IsOpening};
ghost use Rattle.uc_vproc.specs.Desks.{IsTold, ThereWith};

use crate::step::Step;
use std::alloc::{AllocError, Global};
use uc_entry::request::Answer;

/// What may be asked for: the objects that are there, and so many clusters and processors as were made.
#[derive(Drop)]
pub struct Registry {
    /// By the object: whether it is made and not gone.
    pub there: Vec<bool>,
    pub clusters: u32,
    pub processors: u32,
}

/// As a run opens: nobody calls the one object, which is task 0's, and all processors are those of the one cluster.
pub fn opening(alloc: Global, processors: u32) -> Result<Registry, AllocError>
    ensures { IfOk result (λ r. IsOpening processors r) }
{
    let mut there = Vec::with_capacity(alloc, 1)?;
    there.push_reserved(false);
    Ok(Registry {
        there,
        clusters: 1,
        processors,
    })
}

/// An object of which a task is told is there, where it has the next number.
pub fn put_in(there: &mut Vec<bool>, step: &Step)
    requires reserved { vec_len there.old < vec_capacity there.old }
    ensures { ThereWith there.old.items there.new.items step.now }
{
    match told(step) {
        None => {}
        Some(object) => {
            if object as usize == there.len() {
                there.push_reserved(true);
            }
        }
    }
}

// The object of which a task is told.
fn told(step: &Step) -> Option<u32>
    ensures { IfSome result (λ o. IsTold o step.now) }
{
    match step {
        Step::Going(given) => object_of(&given.answer),
        Step::Idle => None,
        Step::Over => None,
    }
}

fn object_of(answer: &Answer) -> Option<u32>
    ensures { IfSome result (λ o. answer.now ≡ answers.Object o) }
{
    match *answer {
        Answer::Object(object) => Some(object),
        _ => None,
    }
}

/// One more of what was counted.
pub fn count_one(count: &mut u32)
    ensures { count.new ≤ count.old + 1 }
{
    *count = count.saturating_add(1);
}

/// An object is there no more.
pub fn take_out(there: &mut Vec<bool>, object: u32)
    ensures { (o : ℕ) → slice_index_or there.new.items o false ≡ true →
        (slice_index_or there.old.items o false ≡ true) × (o ≡ object → ⊥) }
{
    if (object as usize) < there.len() {
        there[object as usize] = false;
    }
}
