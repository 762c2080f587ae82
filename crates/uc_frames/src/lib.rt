// The cells of tasks: stacks of frames, and what is at home in tasks and mutex objects.
#![tactic(auto)]

mod activations;
pub mod active;
pub mod block;
pub mod call;
pub mod cell;
mod coroutines;
pub mod event;
mod frames;
mod inside;
pub mod links;
pub mod members;
mod mutex;
mod numbered;
mod operands;
pub mod parked;
mod pending;
pub mod pieces;
pub mod search;
pub mod stack;
mod switching;
pub mod task;
pub mod work;
