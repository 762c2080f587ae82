// The entries that are made, beside those of a journal.

ghost use Rattle.std.specs.Prelude.{◌≡◌, true, false, IfSome, IfNone};
ghost use Rattle.uc_entry.specs.declared.entry.Options.{Options};
ghost use Rattle.uc_acts.specs.Journal.{begin};
ghost use Rattle.uc_acts.specs.KernelRuns.{InRange};
ghost use Rattle.uc_judge.specs.Runs.{lined};
ghost use Rattle.uc_judge.specs.Compared.{Compares};

use crate::actor::begin;
use uc_entry::entry::{Entry, Options};
use uc_tree::limits::{
    ENTRIES_MAX, ENTRIES_MIN, PROCESSORS, PROCESSORS_MIN, SLICE_MAX, SLICE_MIN, TICKS_MAX,
    TICKS_MIN,
};

/// Of entries that were made, the number of the first that does not stand in a journal, where it has lines or not.
pub fn first_other(made: &[Entry], journal: &[Entry], lines: bool) -> Option<usize>
    ensures { Compares lines made.now journal.now result }
{
    for (i, e) in made.iter().enumerate() {
        if i >= journal.len() {
            return Some(i);
        }
        if !is_written(e, &journal[i], lines) {
            return Some(i);
        }
    }
    None
}

/// Whether an entry is written as another one.
pub(crate) fn is_written(e: &Entry, entry: &Entry, lines: bool) -> bool
    ensures same { result ≡ true → entry.now ≡ lined lines e.now }
    ensures other { result ≡ false → entry.now ≡ lined lines e.now → ⊥ }
{
    let line = if lines { e.line } else { 0 };
    *entry == Entry { line, ..*e }
}

/// The options of which an entry is the beginning.
pub fn options_of(e: &Entry, lines: bool) -> Option<Options>
    ensures range { IfSome result (λ opts. InRange opts) }
    ensures begins { IfSome result (λ opts. e.now ≡ lined lines (begin opts)) }
    ensures none { IfNone result ((opts : Options) → InRange opts →
        e.now ≡ lined lines (begin opts) → ⊥) }
{
    if e.a < i64::from(PROCESSORS_MIN) || e.a > i64::from(PROCESSORS) {
        return None;
    }
    if e.b < i64::from(SLICE_MIN) || e.b > i64::from(SLICE_MAX) {
        return None;
    }
    if e.c < TICKS_MIN as i64 || e.c > TICKS_MAX as i64 {
        return None;
    }
    if e.d < i64::from(ENTRIES_MIN) || e.d > i64::from(ENTRIES_MAX) {
        return None;
    }
    let opts = Options {
        processors: e.a as u32,
        slice: e.b as u32,
        ticks: e.c as u64,
        entries: e.d as u32,
    };
    if is_written(&begin(&opts), e, lines) {
        return Some(opts);
    }
    None
}
