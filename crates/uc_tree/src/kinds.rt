// Small parts of declarations.

ghost use Rattle.std.specs.Prelude.{◌≡◌};
ghost use Rattle.uc_tree.specs.ValueForms.{form_number};

use crate::name::Name;
use crate::pos::Pos;

/// The kind of a class: `_Mutex class` is a monitor and `_Mutex _Coroutine` a cormonitor.
#[derive(Clone, Copy)]
pub enum Kind {
    Class,
    Coroutine,
    Monitor,
    Cormonitor,
    Task,
    Event,
}

/// From where a member may be named.
#[derive(Clone, Copy)]
pub enum Access {
    Public,
    Private,
    Protected,
}

/// What is written before a member.
#[derive(Clone, Copy)]
pub enum MutexMark {
    Unmarked,
    Mutex,
    Nomutex,
}

/// The form in which a value is printed or read: as a number, or as one byte.
#[derive(Clone, Copy)]
pub enum ValueForm {
    Number,
    Character,
}

impl ValueForm {
    /// The number of the form in a request, an entry and a listing.
    pub fn number(self) -> u8
        ensures { result ≡ form_number self }
    {
        match self {
            ValueForm::Number => 0,
            ValueForm::Character => 1,
        }
    }
}

/// What a routine is.
#[derive(Clone, Copy)]
pub enum Role {
    Plain,
    Constructor,
    Destructor,
}

/// Which raises a handler takes: `catch` those of `_Throw`, `_CatchResume` those of `_Resume`.
#[derive(Clone, Copy)]
pub enum HandlerKind {
    Catch,
    CatchResume,
}

/// The type that a declaration begins with.
#[derive(Drop)]
pub enum Base {
    Void,
    Int,
    Char,
    Bool,
    Condition,
    Cluster,
    Processor,
    Named(Name),
}

/// The class that a signature names before `::`; `Here` where it names none.
#[derive(Drop)]
pub enum Owner {
    Here,
    Main,
    Class(Name),
}

/// A parameter. Its place is that of its base.
#[derive(Drop)]
pub struct Param {
    pub pos: Pos,
    pub base: Base,
    pub by_ref: bool,
    pub name: Name,
}

/// The type of an expression or a declaration. An array has a length.
#[derive(Drop)]
pub struct Ty {
    pub base: Base,
    pub by_ref: bool,
    pub len: Option<u32>,
}

/// A name in scope: its type, and the first cell of its variable in the frame.
#[derive(Drop)]
pub struct LocalVariable {
    pub name: Name,
    pub ty: Ty,
    pub cell: u32,
}

/// Where an expression stands: its class, by its place among those of the program, none outside of classes; its routine, or the
/// count of routines outside of them; the number of its scope in that routine, in textual order from 0, and 0 outside.
#[derive(Clone, Copy, PartialEq, Eq, Debug)]
pub struct Place {
    pub class: Option<usize>,
    pub routine: u32,
    pub scope: u32,
}

/// A name in the list of `_Enable` or `_Disable`.
#[derive(Drop)]
pub struct EventName {
    pub pos: Pos,
    pub name: Name,
}

/// A member that an accept clause lists; of the destructor the name behind `~`.
#[derive(Drop)]
pub struct MemberName {
    pub destructor: bool,
    pub name: Name,
}

/// `class Name;`, a class that is defined elsewhere.
#[derive(Drop)]
pub struct Forward {
    pub pos: Pos,
    pub kind: Kind,
    pub name: Name,
}
