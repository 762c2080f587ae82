// What lowering tells of an expression besides its code.

ghost use Rattle.std.specs.Prelude.{◌≡◌, None, false, option_map};
ghost use Rattle.uc_tree.specs.Objects.{shape_of};
ghost use Rattle.uc_resolve.specs.Resolve.{class_or_event, condition_call};
ghost use Rattle.uc_lower_expr.specs.Meanings.{call_of, cell_in, first_in, held_as, shape_as};

use uc_tree::kinds::Base;
use uc_tree::name::Name;

/// How a place of a base keeps a number; a cluster or a processor is known by one, to which its place is bound.
#[derive(Clone, Copy)]
pub enum Scalar {
    Number,
    Character,
    Truth,
    Binding,
}

/// A call of a condition.
#[derive(Clone, Copy)]
pub enum ConditionCall {
    Wait,
    Signal,
    SignalBlock,
    Empty,
    Front,
}

impl ConditionCall {
    // The call of this name.
    pub(crate) fn named(name: &Name) -> Option<ConditionCall>
        ensures { option_map call_of result ≡ condition_call name.now }
    {
        if name.is(b"wait") {
            return Some(ConditionCall::Wait);
        }
        if name.is(b"signal") {
            return Some(ConditionCall::Signal);
        }
        if name.is(b"signalBlock") {
            return Some(ConditionCall::SignalBlock);
        }
        if name.is(b"empty") {
            return Some(ConditionCall::Empty);
        }
        if name.is(b"front") {
            return Some(ConditionCall::Front);
        }
        None
    }
}

/// What an expression is: a variable that is no reference, by its first cell; a field that is none of the object of the running
/// call, by its first cell in that; another place; a mutex object, a cluster or a processor, by its number; a value, `cin`, the member
/// `fail` of `cin`, a routine by its number, a member of the object at the place, by the number of its routine, one of the coroutine
/// there, which must be live, a mutex member of the object with the number, by its number in its class and that of its routine, a
/// condition, by its number or that of the first of its array, a call of the condition with the number, or nothing, where a rule is
/// broken.
#[derive(Clone, Copy)]
pub enum Standing {
    Variable(u32),
    Field(u32),
    Place,
    Number,
    Value,
    Input,
    Fail,
    Routine(u32),
    Member(u32),
    LiveMember(u32),
    MutexMember { member: u8, routine: u32 },
    Condition(u32),
    CallOf(ConditionCall),
    Nothing,
}

impl Standing {
    // What stands where something is held: its number, or itself.
    pub(crate) fn held_as(number: bool) -> Standing
        ensures { result ≡ held_as number }
    {
        if number {
            Standing::Number
        } else {
            Standing::Place
        }
    }

    // The variable that an expression is, if it is one.
    pub(crate) fn variable(self) -> Option<u32>
        ensures { result ≡ cell_in self }
    {
        match self {
            Standing::Variable(cell) => Some(cell),
            Standing::Field(_) => None,
            Standing::Place => None,
            Standing::Number => None,
            Standing::Value => None,
            Standing::Input => None,
            Standing::Fail => None,
            Standing::Routine(_) => None,
            Standing::Member(_) => None,
            Standing::LiveMember(_) => None,
            Standing::MutexMember { .. } => None,
            Standing::Condition(_) => None,
            Standing::CallOf(_) => None,
            Standing::Nothing => None,
        }
    }

    // The number of the condition that an expression is, or of the first of its array.
    pub(crate) fn condition(self) -> Option<u32>
        ensures { result ≡ first_in self }
    {
        match self {
            Standing::Condition(first) => Some(first),
            Standing::Variable(_) => None,
            Standing::Field(_) => None,
            Standing::Place => None,
            Standing::Number => None,
            Standing::Value => None,
            Standing::Input => None,
            Standing::Fail => None,
            Standing::Routine(_) => None,
            Standing::Member(_) => None,
            Standing::LiveMember(_) => None,
            Standing::MutexMember { .. } => None,
            Standing::CallOf(_) => None,
            Standing::Nothing => None,
        }
    }
}

/// How the base of an expression's type keeps a number, the class of objects or the event that the base names, by its place among the
/// classes of the program, whether what it names is known by its number, the length of an array, and what the expression is.
#[derive(Clone, Copy)]
pub struct ExprMeaning {
    pub scalar: Scalar,
    pub class: Option<usize>,
    pub numbered: bool,
    pub event: Option<usize>,
    pub elements: Option<u32>,
    pub standing: Standing,
}

impl Scalar {
    /// How a base keeps a number.
    pub fn of_base(base: &Base) -> Scalar
        ensures shape { shape_of base.now ≡ shape_as result }
    {
        match base {
            Base::Char => Scalar::Character,
            Base::Bool => Scalar::Truth,
            Base::Void => Scalar::Number,
            Base::Int => Scalar::Number,
            Base::Condition => Scalar::Number,
            Base::Cluster => Scalar::Binding,
            Base::Processor => Scalar::Binding,
            Base::Named(_) => Scalar::Number,
        }
    }
}

impl ExprMeaning {
    /// A scalar value.
    pub fn value(scalar: Scalar) -> ExprMeaning
        ensures { result ≡ record {
          scalar = scalar;
          class = None;
          numbered = false;
          event = None;
          elements = None;
          standing = Standing.Value;
        } }
    {
        ExprMeaning {
            scalar,
            class: None,
            numbered: false,
            event: None,
            elements: None,
            standing: Standing::Value,
        }
    }

    /// What breaks a rule: the value 0, which stands for nothing.
    pub fn nothing() -> ExprMeaning
        ensures { result ≡ record {
          scalar = Scalar.Number;
          class = None;
          numbered = false;
          event = None;
          elements = None;
          standing = Standing.Nothing;
        } }
    {
        ExprMeaning {
            scalar: Scalar::Number,
            class: None,
            numbered: false,
            event: None,
            elements: None,
            standing: Standing::Nothing,
        }
    }

    /// The class whose members it has: that of an object, or an event.
    pub(crate) fn members_of(self) -> Option<usize>
        ensures { result ≡ class_or_event self.class self.event }
    {
        match self.class {
            Some(class) => Some(class),
            None => self.event,
        }
    }

    /// The same type with another standing.
    pub fn standing_as(self, standing: Standing) -> ExprMeaning
        ensures { result ≡ record self { standing = standing } }
    {
        ExprMeaning { standing, ..self }
    }
}
