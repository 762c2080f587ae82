// The journal of a run, and what it tells at once: ticks, reads, and the answer of each task.
#![tactic(auto)]

mod answers;
pub mod kernel_journal;
mod notes;

pub use kernel_journal::KernelJournal;
