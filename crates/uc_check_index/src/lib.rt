//! Tables of what the items of a program declare, by name and by signature.

#![tactic(auto)]

mod firsts;
pub mod index;
mod keyed;
mod keys;
mod named;
mod protos;
mod topics;
