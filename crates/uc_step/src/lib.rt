// One op of a task: what the source machine does in some quiet steps.
#![tactic(auto)]

mod accepting;
pub mod begin;
mod carried;
mod conditions;
mod coroutines;
pub mod effect;
mod elements;
mod jumps;
mod memory;
mod mutex;
mod numbers;
mod operators;
mod others;
mod outside;
mod places;
mod plain;
mod polls;
pub mod slot;
pub mod step;
mod together;
