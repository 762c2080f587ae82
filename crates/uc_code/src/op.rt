// The instructions of code.

ghost use Rattle.std.specs.Prelude.{◌≡◌};
ghost use Rattle.uc_code.specs.Listing.{word_of, operands_of};
ghost use Rattle.uc_code.specs.Operands.{numbers_of};

use crate::operands::Operands;
use uc_tree::kinds::ValueForm;

/// An instruction. Values are pushed to the operands of the running activation and popped from them; a cell, a routine, a class, an accept
/// statement and a text literal go by number, an event and a mutex member too. A jump names the op at which it goes on.
#[derive(Clone, Copy)]
pub enum Op {
    /// Pushes the number.
    Push(i64),
    /// Pushes the top operand once more.
    Duplicate,
    /// Drops the top operand.
    Discard,
    /// Pushes the operand under the top one once more.
    CopyBelow,
    /// Drops the operand under the top one.
    DiscardBelow,
    /// The place of this cell of the frame.
    Local(u32),
    /// The object at hand.
    Own,
    /// The place of this cell of the object at hand.
    This(u32),
    /// What this cell of the frame holds: a number, or the place that a reference was bound to.
    Via(u32),
    /// The place that this cell of the object at hand holds.
    ViaThis(u32),
    /// The popped place, so many cells on.
    Field(u32),
    /// How many elements stand of the array that is built or destroyed.
    Counted,
    /// The popped place at the popped index of an array of this length, whose elements have this size.
    Index { length: u32, size: u32 },
    /// What the popped place holds.
    Load,
    /// Writes a value to a place as a number and pops both. What is no number is 0.
    Store,
    /// Writes a value to a place as a number and leaves the value.
    Keep,
    /// Writes the top operand to this cell of the frame as a number and leaves it.
    Set(u32),
    /// Binds the place below the top operand to that, which is a place or what has a number of its own, and leaves the top operand.
    Bind,
    /// So many cells of the frame, from this one on, are 0 again.
    Clear { cell: u32, cells: u32 },
    /// The sum.
    Add,
    /// The difference.
    Subtract,
    /// The product.
    Multiply,
    /// The quotient.
    Divide,
    /// The remainder.
    Remainder,
    /// The number with the other sign.
    Negate,
    /// 1 for 0, and else 0.
    Not,
    /// Whether two numbers are equal.
    Equal,
    /// Whether two numbers differ.
    NotEqual,
    /// Whether the first is less.
    Less,
    /// Whether the first is at most the second.
    LessEqual,
    /// Whether the first is greater.
    Greater,
    /// Whether the first is at least the second.
    GreaterEqual,
    /// The number as a `char`.
    ToChar,
    /// The number as a `bool`.
    ToBool,
    /// Goes on at this op.
    Jump(u32),
    /// Goes on at this op where the popped number is 0.
    IfZero(u32),
    /// Goes on at this op where the popped number is not 0.
    IfNonzero(u32),
    /// So many elements stand of an array that is built or destroyed; goes on at the test of the turns over them.
    Count { elements: u32, test: u32 },
    /// One more element stands.
    More,
    /// Goes on at a turn of the building where fewer elements stand than this length.
    Fill { length: u32, turn: u32 },
    /// Where an element stands, one less stands, and a turn of the destruction comes.
    Sweep(u32),
    /// Takes one tick.
    Tick,
    /// Calls the routine.
    Call(u32),
    /// Calls the routine as a member of the popped place.
    CallOn(u32),
    /// The same for a constructor or a destructor that nobody wrote, which is no active call.
    CallUnwritten(u32),
    /// Ends a call, or a handler of a resumption, behind its last statement.
    Return,
    /// Returns the popped value. In a handler of a resumption it returns from the routine in which that stands.
    ReturnValue,
    /// The same without a value.
    ReturnNone,
    /// The fault of a routine that ended without a value.
    NoReturn,
    /// Enters the object below the arguments of the routine, for a mutex call of the member of this number: a task that is inside is one
    /// deeper and goes on, another asks.
    Enter { member: u8, routine: u32 },
    /// A mutex call leaves the object at hand: where it is not the last one the task is one less deep and goes on at this op. The last one
    /// asks; behind one that is unwound the task goes on at this op too.
    Leave(u32),
    /// Where a return of a handler unwinds to this mutex call, that is over: what it hands over is the one operand, and the call goes on at
    /// this op. Else it goes on unwinding.
    Arrive(u32),
    /// Asks for a mutex object of the class, which this constructor builds. The answer is pushed, and the object's members come into the
    /// hand.
    Make { class: u32, routine: u32 },
    /// Binds the place below the arguments of the routine to the popped number, which then stands there: an object of the class is made.
    BindMade { class: u32, routine: u32 },
    /// The object at hand is built and free.
    Made,
    /// The object at hand is built, and begins as a task whose main is the routine.
    Spawn(u32),
    /// The mutex call in which the object at hand is destroyed ends, and that is no more.
    Gone,
    /// The building of the object at hand is given up, and that is no more.
    GiveUp,
    /// The coroutine at hand gets an execution whose main is the routine.
    Coroutine(u32),
    /// The coroutine at hand is live from now on.
    Live,
    /// Asks that the coroutine is live whose place lies below the arguments of the routine; else its fault.
    Alive(u32),
    /// The coroutine at hand is live no more, and unwound.
    UnwindCoroutine,
    /// The execution of the coroutine at hand is no more.
    Forget,
    /// Resumes the coroutine at hand; in a main the execution that runs, which is a fault.
    Resume,
    /// Suspends the running execution.
    Suspend,
    /// Goes on behind a switch, or unwinds where there is a reason by now.
    Land,
    /// Ends the main of a coroutine.
    EndMain,
    /// Ends the main of a task, which is a fault where calls or buildings hold it up in its own object.
    EndTask,
    /// Where the main of a coroutine is unwound, ends it as the reason says: by a return, a destruction or an event.
    Escape,
    /// Throws an event: pops its fields and its number.
    Throw,
    /// Raises an event for resumption: pops its fields and its number.
    Raise,
    /// Pops a task or a coroutine and an event, with its fields and its number, and raises that there: a task by a request, a coroutine
    /// by what is pending at its execution.
    RaiseAt,
    /// Where a return of a handler unwinds to this activation, that is over; else goes on unwinding.
    Handled,
    /// Ends the main of a task where a return of a handler unwinds it; else the fault of an event that nothing handles.
    Unhandled,
    /// Ends a clean-up that unwinding performs, and goes on unwinding.
    Unwind,
    /// Enables the events of the mask beside the others. This cell of the frame keeps which were enabled before.
    Enable { events: u64, cell: u32 },
    /// Enables the events of the mask no more. This cell of the frame keeps which were enabled before.
    Disable { events: u64, cell: u32 },
    /// Enables those events alone that this cell of the frame keeps.
    Restore(u32),
    /// Goes on at this op where no event is enabled, or where a coroutine has none pending that is. Else the oldest enabled one that is
    /// pending is delivered as three operands, its number and its fields, by a tick or by a request that may deliver none.
    Poll(u32),
    /// Drops the three operands and goes on at this op where none was delivered. Else raises the event for resumption.
    Deliver(u32),
    /// Pops so many guards and accepts by the accept statement of this number: the answer is pushed as the number of a clause and whether
    /// the call that it took has failed. Where no guard is true 0 is pushed, and it goes on at this op.
    Accept { site: u32, guards: u32, end: u32 },
    /// Goes on at this op where the popped number is 0. Else the event of a failed call is pushed, its number and its fields.
    Failed(u32),
    /// Where the popped number is at most so many, goes on so many ops behind the next one, else at this op.
    Choose { clauses: u32, end: u32 },
    /// The number of the element at the popped index of an array of so many conditions, the first of which has this number.
    Condition { first: u32, count: u32 },
    /// Waits on the condition.
    Wait,
    /// Signals the condition.
    Signal,
    /// Signals the condition and waits for the signalled task.
    SignalBlock,
    /// Whether no task waits on the condition.
    Empty,
    /// The number that the first waiting task left.
    Front,
    /// Prints the popped value in this form.
    Print(ValueForm),
    /// Prints the text literal of this number.
    Text(u32),
    /// Gathers printed items until the next flush.
    Hold,
    /// Puts what was gathered.
    Flush,
    /// Reads a value of this form.
    Read(ValueForm),
    /// Whether a read found no value.
    Fail,
    /// Lets other tasks run.
    Yield,
    /// Makes a cluster.
    Cluster,
    /// Ends a cluster.
    ClusterEnd,
    /// Makes a processor.
    Processor,
    /// Ends a processor.
    ProcessorEnd,
    /// Moves the running task to another cluster.
    Migrate,
}

impl Op {
    /// The word of the listing.
    pub fn word(self) -> &'static [u8]
        ensures { result.now ≡ word_of self }
    {
        match self {
            Op::Push(_) => b"push",
            Op::Duplicate => b"dup",
            Op::Discard => b"drop",
            Op::CopyBelow => b"over",
            Op::DiscardBelow => b"nip",
            Op::Local(_) => b"local",
            Op::Own => b"own",
            Op::This(_) => b"this",
            Op::Via(_) => b"via",
            Op::ViaThis(_) => b"viathis",
            Op::Field(_) => b"field",
            Op::Counted => b"counted",
            Op::Index { .. } => b"index",
            Op::Load => b"load",
            Op::Store => b"store",
            Op::Keep => b"keep",
            Op::Set(_) => b"set",
            Op::Bind => b"bind",
            Op::Clear { .. } => b"clear",
            Op::Add => b"add",
            Op::Subtract => b"sub",
            Op::Multiply => b"mul",
            Op::Divide => b"div",
            Op::Remainder => b"rem",
            Op::Negate => b"neg",
            Op::Not => b"not",
            Op::Equal => b"eq",
            Op::NotEqual => b"ne",
            Op::Less => b"lt",
            Op::LessEqual => b"le",
            Op::Greater => b"gt",
            Op::GreaterEqual => b"ge",
            Op::ToChar => b"char",
            Op::ToBool => b"bool",
            Op::Jump(_) => b"jump",
            Op::IfZero(_) => b"zero",
            Op::IfNonzero(_) => b"nonzero",
            Op::Count { .. } => b"count",
            Op::More => b"more",
            Op::Fill { .. } => b"fill",
            Op::Sweep(_) => b"sweep",
            Op::Tick => b"tick",
            Op::Call(_) => b"call",
            Op::CallOn(_) => b"callon",
            Op::CallUnwritten(_) => b"callun",
            Op::Return => b"ret",
            Op::ReturnValue => b"retval",
            Op::ReturnNone => b"retnone",
            Op::NoReturn => b"noret",
            Op::Enter { .. } => b"enter",
            Op::Leave(_) => b"leave",
            Op::Arrive(_) => b"arrive",
            Op::Make { .. } => b"make",
            Op::BindMade { .. } => b"bindmade",
            Op::Made => b"made",
            Op::Spawn(_) => b"spawn",
            Op::Gone => b"gone",
            Op::GiveUp => b"giveup",
            Op::Coroutine(_) => b"coro",
            Op::Live => b"live",
            Op::Alive(_) => b"alive",
            Op::UnwindCoroutine => b"uncoro",
            Op::Forget => b"forget",
            Op::Resume => b"resume",
            Op::Suspend => b"suspend",
            Op::Land => b"land",
            Op::EndMain => b"endmain",
            Op::EndTask => b"endtask",
            Op::Escape => b"escape",
            Op::Throw => b"throw",
            Op::Raise => b"raise",
            Op::RaiseAt => b"raiseat",
            Op::Handled => b"handled",
            Op::Unhandled => b"unhandled",
            Op::Unwind => b"unwind",
            Op::Enable { .. } => b"enable",
            Op::Disable { .. } => b"disable",
            Op::Restore(_) => b"restore",
            Op::Poll(_) => b"poll",
            Op::Deliver(_) => b"deliver",
            Op::Accept { .. } => b"accept",
            Op::Failed(_) => b"failed",
            Op::Choose { .. } => b"choose",
            Op::Condition { .. } => b"condition",
            Op::Wait => b"wait",
            Op::Signal => b"signal",
            Op::SignalBlock => b"sigblock",
            Op::Empty => b"empty",
            Op::Front => b"front",
            Op::Print(_) => b"print",
            Op::Text(_) => b"text",
            Op::Hold => b"hold",
            Op::Flush => b"flush",
            Op::Read(_) => b"read",
            Op::Fail => b"fail",
            Op::Yield => b"yield",
            Op::Cluster => b"cluster",
            Op::ClusterEnd => b"clusterend",
            Op::Processor => b"proc",
            Op::ProcessorEnd => b"procend",
            Op::Migrate => b"migrate",
        }
    }

    // The operands of the listing.
    pub(crate) fn operands(self) -> Operands
        ensures { numbers_of result ≡ operands_of self }
    {
        match self {
            Op::Push(number) => Operands::Constant(number),
            Op::Duplicate => Operands::Nothing,
            Op::Discard => Operands::Nothing,
            Op::CopyBelow => Operands::Nothing,
            Op::DiscardBelow => Operands::Nothing,
            Op::Local(number) => Operands::One(number as u64),
            Op::Own => Operands::Nothing,
            Op::This(number) => Operands::One(number as u64),
            Op::Via(number) => Operands::One(number as u64),
            Op::ViaThis(number) => Operands::One(number as u64),
            Op::Field(number) => Operands::One(number as u64),
            Op::Counted => Operands::Nothing,
            Op::Index { length, size } => Operands::Two(length as u64, size as u64),
            Op::Load => Operands::Nothing,
            Op::Store => Operands::Nothing,
            Op::Keep => Operands::Nothing,
            Op::Set(cell) => Operands::One(cell as u64),
            Op::Bind => Operands::Nothing,
            Op::Clear { cell, cells } => Operands::Two(cell as u64, cells as u64),
            Op::Add => Operands::Nothing,
            Op::Subtract => Operands::Nothing,
            Op::Multiply => Operands::Nothing,
            Op::Divide => Operands::Nothing,
            Op::Remainder => Operands::Nothing,
            Op::Negate => Operands::Nothing,
            Op::Not => Operands::Nothing,
            Op::Equal => Operands::Nothing,
            Op::NotEqual => Operands::Nothing,
            Op::Less => Operands::Nothing,
            Op::LessEqual => Operands::Nothing,
            Op::Greater => Operands::Nothing,
            Op::GreaterEqual => Operands::Nothing,
            Op::ToChar => Operands::Nothing,
            Op::ToBool => Operands::Nothing,
            Op::Jump(number) => Operands::One(number as u64),
            Op::IfZero(number) => Operands::One(number as u64),
            Op::IfNonzero(number) => Operands::One(number as u64),
            Op::Count { elements, test } => Operands::Two(elements as u64, test as u64),
            Op::More => Operands::Nothing,
            Op::Fill { length, turn } => Operands::Two(length as u64, turn as u64),
            Op::Sweep(number) => Operands::One(number as u64),
            Op::Tick => Operands::Nothing,
            Op::Call(number) => Operands::One(number as u64),
            Op::CallOn(number) => Operands::One(number as u64),
            Op::CallUnwritten(number) => Operands::One(number as u64),
            Op::Return => Operands::Nothing,
            Op::ReturnValue => Operands::Nothing,
            Op::ReturnNone => Operands::Nothing,
            Op::NoReturn => Operands::Nothing,
            Op::Enter { member, routine } => Operands::Two(member as u64, routine as u64),
            Op::Leave(number) => Operands::One(number as u64),
            Op::Arrive(number) => Operands::One(number as u64),
            Op::Make { class, routine } => Operands::Two(class as u64, routine as u64),
            Op::BindMade { class, routine } => Operands::Two(class as u64, routine as u64),
            Op::Made => Operands::Nothing,
            Op::Spawn(number) => Operands::One(number as u64),
            Op::Gone => Operands::Nothing,
            Op::GiveUp => Operands::Nothing,
            Op::Coroutine(number) => Operands::One(number as u64),
            Op::Live => Operands::Nothing,
            Op::Alive(number) => Operands::One(number as u64),
            Op::UnwindCoroutine => Operands::Nothing,
            Op::Forget => Operands::Nothing,
            Op::Resume => Operands::Nothing,
            Op::Suspend => Operands::Nothing,
            Op::Land => Operands::Nothing,
            Op::EndMain => Operands::Nothing,
            Op::EndTask => Operands::Nothing,
            Op::Escape => Operands::Nothing,
            Op::Throw => Operands::Nothing,
            Op::Raise => Operands::Nothing,
            Op::RaiseAt => Operands::Nothing,
            Op::Handled => Operands::Nothing,
            Op::Unhandled => Operands::Nothing,
            Op::Unwind => Operands::Nothing,
            Op::Enable { events, cell } => Operands::Two(events, cell as u64),
            Op::Disable { events, cell } => Operands::Two(events, cell as u64),
            Op::Restore(number) => Operands::One(number as u64),
            Op::Poll(number) => Operands::One(number as u64),
            Op::Deliver(number) => Operands::One(number as u64),
            Op::Accept { site, guards, end } => {
                Operands::Three(site as u64, guards as u64, end as u64)
            }
            Op::Failed(number) => Operands::One(number as u64),
            Op::Choose { clauses, end } => Operands::Two(clauses as u64, end as u64),
            Op::Condition { first, count } => Operands::Two(first as u64, count as u64),
            Op::Wait => Operands::Nothing,
            Op::Signal => Operands::Nothing,
            Op::SignalBlock => Operands::Nothing,
            Op::Empty => Operands::Nothing,
            Op::Front => Operands::Nothing,
            Op::Print(form) => Operands::One(form.number() as u64),
            Op::Text(number) => Operands::One(number as u64),
            Op::Hold => Operands::Nothing,
            Op::Flush => Operands::Nothing,
            Op::Read(form) => Operands::One(form.number() as u64),
            Op::Fail => Operands::Nothing,
            Op::Yield => Operands::Nothing,
            Op::Cluster => Operands::Nothing,
            Op::ClusterEnd => Operands::Nothing,
            Op::Processor => Operands::Nothing,
            Op::ProcessorEnd => Operands::Nothing,
            Op::Migrate => Operands::Nothing,
        }
    }
}
