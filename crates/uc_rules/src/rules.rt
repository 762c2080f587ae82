// What names and expressions stand for under the rules of the language.

use uc_tree::kinds::{Access, Kind, Role};
use uc_tree::name::Name;
use uc_tree::pos::Pos;

/// What a variable holds, or a value is. A class has its place among the classes of the program, events included.
#[derive(Clone, Copy)]
pub enum Sort {
    Void,
    Int,
    Char,
    Bool,
    Condition,
    Cluster,
    Processor,
    Object { class: usize, kind: Kind },
}

/// A member of a condition.
#[derive(Clone, Copy)]
pub enum Operation {
    Wait,
    Signal,
    SignalBlock,
    Front,
    Empty,
}

/// What an expression stands for.
#[derive(Clone, Copy)]
pub enum Entity {
    /// A value without a place; of sort `Void` none.
    Value {
        sort: Sort,
    },
    /// The place of a variable.
    Place {
        sort: Sort,
    },
    /// An array.
    Array {
        sort: Sort,
        len: u32,
    },
    /// `cin`.
    Input,
    /// The member `fail` of `cin`.
    Fail,
    /// A member of a condition.
    Operation {
        operation: Operation,
    },
    /// The main of uMain.
    Main,
    /// A routine or prototype outside of classes, by its place among the items.
    Routine {
        item: usize,
    },
    /// A member routine, by its class and its place among the members. `inner` is one that only inner routines of its class
    /// may call, `by_path` one that was named behind a `.`.
    Method {
        class: usize,
        member: usize,
        inner: bool,
        by_path: bool,
    },
    /// The name of a class or event, and a handler's parameter of `uUnhandled`.
    ClassName,
    /// A member that is not there, where it is called.
    Missing,
}

/// The place of a field in its class: that of its member, and that in the member's list.
#[derive(Clone, Copy)]
pub struct FieldPlace {
    pub member: usize,
    pub index: usize,
}

/// Where a name comes from.
#[derive(Clone, Copy)]
pub enum Origin {
    Local,
    Parameter {
        by_ref: bool,
    },
    /// A field.
    Field {
        class: usize,
        kind: Kind,
        access: Access,
        by_ref: bool,
        field: FieldPlace,
    },
    /// A member routine.
    Method {
        class: usize,
        access: Access,
    },
    /// What all of the program sees.
    Outer,
}

/// What a name stands for. Where its type is unknown, nothing is asked of it.
#[derive(Clone, Copy)]
pub struct NameMeaning {
    pub entity: Option<Entity>,
    pub origin: Origin,
}

/// A local or parameter in scope.
#[derive(Drop)]
pub struct LocalName {
    pub name: Name,
    pub meant: NameMeaning,
}

/// What is asked of an argument.
#[derive(Clone, Copy)]
pub enum Expected {
    /// Nothing.
    Anything,
    /// That it does not stand there.
    Nothing,
    /// A scalar.
    Scalar,
    /// A place of just this sort.
    Reference { sort: Sort },
}

/// What the arguments in a list go to.
#[derive(Clone, Copy)]
pub enum Target {
    /// Nothing is asked of them.
    Unknown,
    /// They are values of a scalar, or of an array: their number is asked elsewhere.
    Scalar,
    /// There are none: a cluster or a condition.
    Nothing,
    /// A reference to this sort.
    Reference { sort: Sort },
    /// What is called.
    Call { entity: Entity },
    /// The constructor of this class.
    Constructor { class: usize },
}

/// The class in whose routine something stands.
#[derive(Clone, Copy)]
pub struct OwnClass {
    pub class: usize,
    pub kind: Kind,
}

/// The initialiser in whose argument something stands: the place of the argument, the field, and whether the argument is a name
/// that a reference is bound to.
#[derive(Clone, Copy)]
pub struct Bound {
    pub pos: Pos,
    pub field: FieldPlace,
    pub whole: bool,
}

/// What stands round a place in a program.
#[derive(Clone, Copy)]
pub struct Surroundings {
    /// The class of the routine; none outside of classes and in uMain.
    pub home: Option<OwnClass>,
    /// Whether it is a member of uMain.
    pub main: bool,
    pub role: Role,
    /// Whether it is an inner routine of a mutex type.
    pub inner: bool,
    /// Whether the routine returns a scalar.
    pub returns: bool,
    /// Whether there is a loop round it, in the same routine and handler.
    pub in_loop: bool,
    pub in_handler: bool,
    /// Whether a block that stands here is one scope with what stands round it: the statement of a `for`.
    pub joins: bool,
    /// The initialiser.
    pub bound: Option<Bound>,
}
