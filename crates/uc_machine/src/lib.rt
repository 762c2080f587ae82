// The machine over source trees: executions, the steps between requests, switches, raising, rides, and what answers do to a state.
#![tactic(auto)]

pub mod exec;
