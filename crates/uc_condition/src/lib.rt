// The tasks that wait on the conditions of a run's mutex objects.
#![tactic(auto)]

mod buckets;
pub mod conditions;
pub mod laws;

pub use conditions::Conditions;
