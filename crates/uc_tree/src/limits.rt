// Every limit of the language, of the kernel and of the options of the program. docs/formats.md, "Limits", names the few
// places where a number that follows from one of them is written again. A `prove!` ties a limit of the formats to its
// number, so that a change of either alone is refused.

/// Bits of an `int`.
pub const INT_BITS: u32 = 64;

/// The least `int`.
pub const INT_MIN: i64 = -9_223_372_036_854_775_808;

/// The greatest `int`.
pub const INT_MAX: i64 = 9_223_372_036_854_775_807;

/// How many values a `char` has: its values are below this.
pub const CHAR_VALUES: i64 = 256;

/// The greatest value of a number literal.
pub const NUMBER_MAX: u64 = 9_223_372_036_854_775_807;

/// Bytes of a name.
pub const NAME_BYTES: usize = 64;

/// Bytes of a text literal's value.
pub const TEXT_BYTES: usize = 1_024;

const _: () = prove!(TEXT_BYTES == 1_024);

/// Bytes of a program text.
pub const PROGRAM_BYTES: u32 = 1_048_576;

const _: () = prove!(PROGRAM_BYTES == 1_048_576);

/// Bytes of an input text.
pub const INPUT_BYTES: u32 = 1_048_576;

const _: () = prove!(INPUT_BYTES == 1_048_576);

/// Bytes of a journal text.
pub const JOURNAL_BYTES: u32 = 536_870_912;

/// Nesting of a token of a program.
pub const NESTING: u16 = 256;

const _: () = prove!(NESTING == 256);

/// Length of an array.
pub const ARRAY_LENGTH: u32 = 65_536;

const _: () = prove!(ARRAY_LENGTH == 65_536);

/// Cells of a class.
pub const CLASS_CELLS: u64 = 1_048_576;

const _: () = prove!(CLASS_CELLS == 1_048_576);

/// Conditions of a class, an array counted by its length.
pub const CLASS_CONDITIONS: u32 = 65_536;

const _: () = prove!(CLASS_CONDITIONS == 65_536);

/// The greatest number of a condition in its class.
pub const LAST_CONDITION: u16 = 65_535;

/// The greatest number of a class.
pub const LAST_CLASS: u32 = 4_294_967_295;

/// Cells of a frame.
pub const FRAME_CELLS: u64 = 4_096;

const _: () = prove!(FRAME_CELLS == 4_096);

/// `Size` of a program.
pub const PROGRAM_SIZE: u64 = 262_144;

const _: () = prove!(PROGRAM_SIZE == 262_144);

/// Ops that stand for one unit of `Size` at most.
pub const OPS_FOR_SIZE: u32 = 64;

/// Ops of a program: `PROGRAM_SIZE` times `OPS_FOR_SIZE`.
pub const PROGRAM_OPS: u32 = 16_777_216;

const _: () = prove!(PROGRAM_OPS as u64 == PROGRAM_SIZE * OPS_FOR_SIZE as u64);

/// The number of the event `uUnhandled`.
pub const UNHANDLED: u8 = 0;

/// The number of the event `RendezvousFailure`.
pub const FAILURE: u8 = 1;

/// The number of the first event of the program.
pub const FIRST_EVENT: u8 = 2;

/// The greatest number of an event.
pub const LAST_EVENT: u8 = 63;

/// Events that a program declares.
pub const PROGRAM_EVENTS: u8 = 62;

const _: () = prove!(PROGRAM_EVENTS == 62);

/// All events: the numbers of events are below this.
pub const EVENTS: u8 = 64;

/// Fields of an event.
pub const EVENT_FIELDS: u8 = 2;

/// Mutex members of a class besides its destructor.
pub const MEMBERS: u8 = 31;

const _: () = prove!(MEMBERS == 31);

/// The number of the destructor among the mutex members of its class.
pub const DESTRUCTOR: u8 = 0;

/// Clauses of an accept statement.
pub const CLAUSES: u8 = 32;

const _: () = prove!(CLAUSES == 32);

/// Active calls of one execution.
pub const CALLS: u32 = 100_000;

/// Events that are pending at one execution.
pub const PENDING_EVENTS: u8 = 32;

/// Tasks made in a run, the first included.
pub const TASKS: u32 = 65_536;

const _: () = prove!(TASKS == 65_536);

/// Mutex objects made in a run, the first included.
pub const OBJECTS: u32 = 262_144;

const _: () = prove!(OBJECTS == 262_144);

/// Clusters of a run, the first included.
pub const CLUSTERS: u32 = 64;

const _: () = prove!(CLUSTERS == 64);

/// Processors of a run, the opening ones included.
pub const PROCESSORS: u32 = 64;

const _: () = prove!(PROCESSORS == 64);

/// The least number of processors that a run may open with.
pub const PROCESSORS_MIN: u32 = 1;

/// The number of processors where no option gives it.
pub const PROCESSORS_DEFAULT: u32 = 1;

/// The least slice, in ticks.
pub const SLICE_MIN: u32 = 1;

/// The greatest slice, in ticks.
pub const SLICE_MAX: u32 = 1_000_000;

/// The slice where no option gives it, in ticks.
pub const SLICE_DEFAULT: u32 = 1_000;

/// The least bound on the ticks of a run.
pub const TICKS_MIN: u64 = 1;

/// The greatest bound on the ticks of a run.
pub const TICKS_MAX: u64 = 1_000_000_000_000;

/// The bound on the ticks of a run where no option gives it.
pub const TICKS_DEFAULT: u64 = 10_000_000;

/// The least bound on the entries of a journal.
pub const ENTRIES_MIN: u32 = 64;

const _: () = prove!(ENTRIES_MIN == 64);

/// The greatest bound on the entries of a journal.
pub const ENTRIES_MAX: u32 = 10_000_000;

const _: () = prove!(ENTRIES_MAX == 10_000_000);

/// The bound on the entries of a journal where no option gives it.
pub const ENTRIES_DEFAULT: u32 = 200_000;

/// Tasks of a generated program.
pub const MAKE_MAX: u32 = 1_000;
