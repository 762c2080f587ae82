// The lowering of constructors and destructors, written or not.
#![tactic(auto)]

pub mod builder;
mod executions;
mod fields;
mod inits;
mod parts;
mod whole;
