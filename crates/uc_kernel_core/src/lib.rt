// The core of a kernel: each act follows the journal.
#![tactic(auto)]

mod accepts;
mod act;
mod answers;
mod calls;
mod dispatch;
pub mod entries;
mod finish;
pub mod kernel_core;
pub mod laws;
mod processors;
mod raises;
mod tasks;
mod uncounted;
mod waits;
