// The ready queues of a run's clusters, and its processors: who runs where, and who is dispatched next.
#![tactic(auto)]

pub mod clusters;
pub mod laws;
mod processor_set;
mod queue;

pub use clusters::{Clusters, Stalled};
