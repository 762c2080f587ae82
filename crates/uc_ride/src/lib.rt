// Rides of a task: ops up to a number of ticks or to a request.
#![tactic(auto)]

mod events;
pub mod ride;
