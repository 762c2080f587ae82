// Run faults: their numbers and their names.

ghost use Rattle.std.specs.Prelude.{◌≡◌, pos, Some};
ghost use Rattle.uc_entry.specs.Faults.{fault_number, fault_name, fault_of};

/// What may go wrong in a run of an accepted program.
#[derive(Clone, Copy)]
pub enum RunFault {
    /// A number that is no `int`.
    Overflow,
    /// A division by zero, or a remainder of one.
    DivideByZero,
    /// An index that is out of its array.
    Index,
    /// A call too deep.
    Depth,
    /// A resume of a coroutine whose main has ended.
    ResumeEnded,
    /// A resume of the execution that runs.
    ResumeInUse,
    /// A suspend, an end of a coroutine's main, or an event that leaves one, behind which no execution can go on.
    SuspendWithoutResumer,
    /// An event that leaves the main of a task.
    Unhandled,
    /// A wait, an accept, a leave or an end at an object where an execution at home there runs, or has a mutex call or the
    /// building of an object that has not ended.
    BlockedInside,
    /// A destruction of an object at which other tasks wait, or of a cluster on which something stands.
    DestroyBusy,
    /// The front of a condition on which nobody waits.
    FrontOfEmpty,
    /// A routine that ended without its value.
    NoReturn,
    /// An event that leaves a clean-up while another one unwinds.
    EscapeInUnwind,
    /// A resume or a suspend while a coroutine is unwound since it is destroyed.
    SwitchInUnwind,
    /// One task too many.
    TooManyTasks,
    /// One object too many.
    TooManyObjects,
    /// One pending event too many.
    TooManyPending,
    /// One cluster or processor too many.
    TooManyProcessors,
    /// A use of a coroutine that is not live.
    NotLive,
}

impl RunFault {
    /// The number of the fault in a request and in an entry.
    pub fn number(self) -> u8
        ensures { result ≡ fault_number self }
    {
        match self {
            RunFault::Overflow => 1,
            RunFault::DivideByZero => 2,
            RunFault::Index => 3,
            RunFault::Depth => 4,
            RunFault::ResumeEnded => 5,
            RunFault::ResumeInUse => 6,
            RunFault::SuspendWithoutResumer => 7,
            RunFault::Unhandled => 8,
            RunFault::BlockedInside => 9,
            RunFault::DestroyBusy => 10,
            RunFault::FrontOfEmpty => 11,
            RunFault::NoReturn => 12,
            RunFault::EscapeInUnwind => 13,
            RunFault::SwitchInUnwind => 14,
            RunFault::TooManyTasks => 15,
            RunFault::TooManyObjects => 16,
            RunFault::TooManyPending => 17,
            RunFault::TooManyProcessors => 18,
            RunFault::NotLive => 19,
        }
    }

    /// The name of the fault on err.
    pub fn name(self) -> &'static [u8]
        ensures { result.now ≡ fault_name self }
    {
        match self {
            RunFault::Overflow => b"Overflow",
            RunFault::DivideByZero => b"DivideByZero",
            RunFault::Index => b"Index",
            RunFault::Depth => b"Depth",
            RunFault::ResumeEnded => b"ResumeEnded",
            RunFault::ResumeInUse => b"ResumeInUse",
            RunFault::SuspendWithoutResumer => b"SuspendWithoutResumer",
            RunFault::Unhandled => b"Unhandled",
            RunFault::BlockedInside => b"BlockedInside",
            RunFault::DestroyBusy => b"DestroyBusy",
            RunFault::FrontOfEmpty => b"FrontOfEmpty",
            RunFault::NoReturn => b"NoReturn",
            RunFault::EscapeInUnwind => b"EscapeInUnwind",
            RunFault::SwitchInUnwind => b"SwitchInUnwind",
            RunFault::TooManyTasks => b"TooManyTasks",
            RunFault::TooManyObjects => b"TooManyObjects",
            RunFault::TooManyPending => b"TooManyPending",
            RunFault::TooManyProcessors => b"TooManyProcessors",
            RunFault::NotLive => b"NotLive",
        }
    }

    /// The fault of this number, if there is one.
    pub fn of_number(number: i64) -> Option<RunFault>
        ensures fault { result ≡ fault_of number }
        ensures every { (f : RunFault) → fault_of (pos (fault_number f)) ≡ Some f }
    {
        match number {
            1 => Some(RunFault::Overflow),
            2 => Some(RunFault::DivideByZero),
            3 => Some(RunFault::Index),
            4 => Some(RunFault::Depth),
            5 => Some(RunFault::ResumeEnded),
            6 => Some(RunFault::ResumeInUse),
            7 => Some(RunFault::SuspendWithoutResumer),
            8 => Some(RunFault::Unhandled),
            9 => Some(RunFault::BlockedInside),
            10 => Some(RunFault::DestroyBusy),
            11 => Some(RunFault::FrontOfEmpty),
            12 => Some(RunFault::NoReturn),
            13 => Some(RunFault::EscapeInUnwind),
            14 => Some(RunFault::SwitchInUnwind),
            15 => Some(RunFault::TooManyTasks),
            16 => Some(RunFault::TooManyObjects),
            17 => Some(RunFault::TooManyPending),
            18 => Some(RunFault::TooManyProcessors),
            19 => Some(RunFault::NotLive),
            _ => None,
        }
    }
}
