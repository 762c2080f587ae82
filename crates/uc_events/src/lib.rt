// The events that are pending at each task of a run: what was raised and not yet delivered, oldest first.
#![tactic(auto)]

pub mod events;
pub mod laws;
mod raised;

pub use events::Events;
