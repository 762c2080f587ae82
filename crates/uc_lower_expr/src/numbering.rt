// What is numbered in a program, and what its items give names.

use crate::meaning::ExprMeaning;
use uc_names::scope::Scope;
use uc_tree::class::Routine;

/// A constant: what is told of it as a value, and the value.
#[derive(Clone, Copy)]
pub struct ConstantMeaning {
    pub told: ExprMeaning,
    pub value: i64,
}

/// A constructor or a destructor: its number among all routines, and whether it is written.
#[derive(Clone, Copy)]
pub struct ClassRoutine {
    pub number: u32,
    pub written: bool,
}

/// The routines of a program with bodies, in textual order, and the number of the class of each, which is 0 outside of classes.
/// By the places of its classes, events included: their numbers, 0 for an event; the numbers of the constructors and of the destructors
/// that nobody wrote, where one that is written has some number; and the places of their mutex members among these, by name, as far as
/// they have numbers.
#[derive(Drop)]
pub struct Numbering<'a> {
    pub routines: Vec<&'a Routine>,
    pub owners: Vec<u32>,
    pub classes: Vec<u32>,
    pub constructors: Vec<u32>,
    pub destructors: Vec<u32>,
    pub members: Vec<Scope>,
}
