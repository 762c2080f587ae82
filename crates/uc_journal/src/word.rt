// The words of entries.

ghost use Rattle.std.specs.Prelude.{◌≡◌, IfSome, IfNone, find, nat_eq};
ghost use lib.Pointwise.{pointwise};
ghost use Rattle.uc_entry.specs.declared.entry.EntryKind.{EntryKind};
ghost use Rattle.uc_acts.specs.Texts as texts;

use uc_entry::entry::EntryKind;

// Every kind of entry, the most frequent first.
const KINDS: [EntryKind; 34] = [
    EntryKind::Call,
    EntryKind::Leave,
    EntryKind::Dispatch,
    EntryKind::Print,
    EntryKind::Admit,
    EntryKind::Yield,
    EntryKind::Slice,
    EntryKind::Wait,
    EntryKind::Signal,
    EntryKind::Push,
    EntryKind::Accept,
    EntryKind::Poll,
    EntryKind::Raise,
    EntryKind::SignalBlock,
    EntryKind::Empty,
    EntryKind::Front,
    EntryKind::Read,
    EntryKind::Fail,
    EntryKind::Make,
    EntryKind::Made,
    EntryKind::Spawn,
    EntryKind::End,
    EntryKind::Gone,
    EntryKind::Migrate,
    EntryKind::Cluster,
    EntryKind::ClusterEnd,
    EntryKind::Processor,
    EntryKind::ProcessorEnd,
    EntryKind::Begin,
    EntryKind::Fault,
    EntryKind::Done,
    EntryKind::Deadlock,
    EntryKind::NoProcessor,
    EntryKind::Limit,
];

/// The word of a kind.
pub(crate) fn word_of(kind: EntryKind) -> &'static [u8]
    ensures { result.now ≡ texts.word_of kind }
{
    match kind {
        EntryKind::Begin => b"begin",
        EntryKind::Dispatch => b"dispatch",
        EntryKind::Slice => b"slice",
        EntryKind::Yield => b"yield",
        EntryKind::Make => b"make",
        EntryKind::Made => b"made",
        EntryKind::Spawn => b"spawn",
        EntryKind::Call => b"call",
        EntryKind::Leave => b"leave",
        EntryKind::Admit => b"admit",
        EntryKind::Push => b"push",
        EntryKind::Accept => b"accept",
        EntryKind::Wait => b"wait",
        EntryKind::Signal => b"signal",
        EntryKind::SignalBlock => b"sigblock",
        EntryKind::Empty => b"empty",
        EntryKind::Front => b"front",
        EntryKind::Raise => b"raise",
        EntryKind::Poll => b"poll",
        EntryKind::Print => b"print",
        EntryKind::Read => b"read",
        EntryKind::Fail => b"fail",
        EntryKind::Cluster => b"cluster",
        EntryKind::ClusterEnd => b"clusterend",
        EntryKind::Processor => b"proc",
        EntryKind::ProcessorEnd => b"procend",
        EntryKind::Migrate => b"migrate",
        EntryKind::End => b"end",
        EntryKind::Gone => b"gone",
        EntryKind::Fault => b"fault",
        EntryKind::Done => b"done",
        EntryKind::Deadlock => b"deadlock",
        EntryKind::NoProcessor => b"noproc",
        EntryKind::Limit => b"limit",
    }
}

/// The kind that has this word.
pub(crate) fn kind_of(word: &[u8]) -> Option<EntryKind>
    ensures kind { IfSome result (λ kind. word.now ≡ texts.word_of kind) }
    ensures none { IfNone result ((kind : EntryKind) → word.now ≡ texts.word_of kind → ⊥) }
{
    first_of(&KINDS, word)
}

// The first of the kinds that has this word.
fn first_of(kinds: &[EntryKind], word: &[u8]) -> Option<EntryKind>
    ensures { result ≡ find (λ kind. pointwise nat_eq word.now (texts.word_of kind)) kinds.now }
{
    for kind in kinds {
        if word == word_of(*kind) {
            return Some(*kind);
        }
    }
    None
}
