// The types of the fields of each kind of entry.

ghost use Rattle.std.specs.Prelude.{◌≡◌, ◌↔◌, IsTrue};
ghost use Rattle.uc_acts.specs.Fit as fit;

use uc_acts::field::FieldType::{self, Absent, Byte, Integer, Natural, Short, Word};
use uc_entry::entry::EntryKind;

/// The types of the fields of a kind: processor, task, ticks, object, a, b, c, d, line.
pub(crate) fn types_of(kind: EntryKind) -> [FieldType; 9]
    ensures { result ≡ fit.types_of kind }
{
    match kind {
        EntryKind::Begin => [
            Absent, Absent, Word, Absent, Natural, Natural, Natural, Natural, Word,
        ],
        EntryKind::Dispatch => acting(Absent, Absent, Absent, Absent, Absent),
        EntryKind::Slice => acting(Absent, Absent, Absent, Absent, Absent),
        EntryKind::Yield => acting(Absent, Absent, Absent, Absent, Absent),
        EntryKind::Make => acting(Word, Word, Absent, Absent, Absent),
        EntryKind::Made => acting(Word, Absent, Absent, Absent, Absent),
        EntryKind::Spawn => acting(Word, Word, Absent, Absent, Absent),
        EntryKind::Call => acting(Word, Byte, Absent, Absent, Absent),
        EntryKind::Leave => acting(Word, Natural, Absent, Absent, Absent),
        EntryKind::Admit => acting(Word, Natural, Natural, Natural, Absent),
        EntryKind::Push => acting(Word, Absent, Absent, Absent, Absent),
        EntryKind::Accept => acting(Word, Word, Word, Natural, Natural),
        EntryKind::Wait => acting(Word, Short, Integer, Absent, Absent),
        EntryKind::Signal => acting(Word, Short, Natural, Absent, Absent),
        EntryKind::SignalBlock => acting(Word, Short, Natural, Absent, Absent),
        EntryKind::Empty => acting(Word, Short, Natural, Absent, Absent),
        EntryKind::Front => acting(Word, Short, Integer, Absent, Absent),
        EntryKind::Raise => acting(Word, Word, Byte, Integer, Integer),
        EntryKind::Poll => acting(Absent, Natural, Integer, Integer, Integer),
        EntryKind::Print => acting(Absent, Natural, Integer, Absent, Absent),
        EntryKind::Read => acting(Absent, Natural, Integer, Natural, Natural),
        EntryKind::Fail => acting(Absent, Absent, Natural, Absent, Absent),
        EntryKind::Cluster => acting(Absent, Word, Absent, Absent, Absent),
        EntryKind::ClusterEnd => acting(Absent, Word, Absent, Absent, Absent),
        EntryKind::Processor => acting(Absent, Word, Word, Absent, Absent),
        EntryKind::ProcessorEnd => acting(Absent, Word, Word, Absent, Absent),
        EntryKind::Migrate => acting(Absent, Word, Absent, Absent, Absent),
        EntryKind::End => acting(Word, Absent, Absent, Absent, Absent),
        EntryKind::Gone => acting(Word, Absent, Absent, Absent, Absent),
        EntryKind::Fault => acting(Absent, Natural, Natural, Absent, Absent),
        EntryKind::Done => acting(Absent, Absent, Absent, Absent, Absent),
        EntryKind::Deadlock => acting(Absent, Absent, Absent, Absent, Absent),
        EntryKind::NoProcessor => acting(Absent, Absent, Absent, Absent, Absent),
        EntryKind::Limit => acting(Absent, Absent, Absent, Absent, Absent),
    }
}

// Those of every kind but `begin`: any processor, any task, any ticks, any line.
fn acting(
    object: FieldType,
    a: FieldType,
    b: FieldType,
    c: FieldType,
    d: FieldType,
) -> [FieldType; 9]
    ensures { result ≡ fit.acting object a b c d }
{
    [Byte, Word, Word, object, a, b, c, d, Word]
}

/// Whether a number is of a type.
pub(crate) fn is_of(kind: FieldType, number: i64) -> bool
    ensures { IsTrue result ↔ fit.IsOf kind number }
{
    least(kind) <= number && number <= greatest(kind)
}

fn least(kind: FieldType) -> i64
    ensures { result ≡ fit.least kind }
{
    match kind {
        Absent => 0,
        Byte => 0,
        Short => 0,
        Word => 0,
        Natural => 0,
        Integer => i64::MIN,
    }
}

fn greatest(kind: FieldType) -> i64
    ensures { result ≡ fit.greatest kind }
{
    match kind {
        Absent => 0,
        Byte => i64::from(u8::MAX),
        Short => i64::from(u16::MAX),
        Word => i64::from(u32::MAX),
        Natural => i64::MAX,
        Integer => i64::MAX,
    }
}
