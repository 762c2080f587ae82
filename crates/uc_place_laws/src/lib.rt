// Laws of the places that are bound: aside of the variables that are still to be bound, those that the
// statement has named, and where scopes of objects open.
#![tactic(auto)]

pub mod aside;
pub mod binding;
pub mod opening;
