// Reads the line of an entry.

ghost use Rattle.std.specs.Prelude.{◌≡◌, ◌≤◌, ◌==◌, ◌∷◌, ℕ, List, not, length, IfSome, IfNone, IsTrue, ◌↔◌};
ghost use Rattle.std.specs.List.{prefix_len};
ghost use Rattle.uc_entry.specs.declared.entry.Entry.{Entry};
ghost use Rattle.uc_acts.specs.Fit as fit;
ghost use Rattle.uc_journal.specs.Fields.{IsLine};

use crate::fields::read_fields;
use crate::form::Form;
use crate::types::{is_of, types_of};
use crate::word::kind_of;
use uc_acts::field::FieldType;
use uc_entry::entry::{Entry, EntryKind};

/// An entry, and what stands behind its line.
#[derive(Clone, Copy)]
pub(crate) struct Line<'a> {
    pub entry: Entry,
    pub rest: &'a [u8],
}

/// Reads the line of a fit entry that stands first.
pub(crate) fn read_line(text: &[u8], form: Form) -> Option<Line<'_>>
    ensures line { IfSome result (λ l. IsLine form text.now l.entry l.rest.now) }
    ensures none { IfNone result ((e : Entry) (rest : List ℕ) → IsLine form text.now e rest → ⊥) }
{
    let length = word_length(text);
    let Some(kind) = kind_of(&text[..length]) else {
        return None;
    };
    let Some(fields) = read_fields(&text[length..], form) else {
        return None;
    };
    let Some(entry) = entry_of(kind, &fields.values) else {
        return None;
    };
    match behind_newline(fields.rest) {
        Some(rest) => Some(Line { entry, rest }),
        None => None,
    }
}

// How many bytes stand before the first space.
fn word_length(text: &[u8]) -> usize
    ensures before { result ≡ prefix_len (λ b. not (b == 32)) text.now }
    ensures inside { result ≤ length text.now }
{
    for (i, byte) in text.iter().enumerate() {
        if *byte == b' ' {
            return i;
        }
    }
    text.len()
}

// What stands behind a newline.
fn behind_newline(text: &[u8]) -> Option<&[u8]>
    ensures newline { IfSome result (λ rest. text.now ≡ 10 ∷ rest.now) }
    ensures none { IfNone result ((rest : List ℕ) → text.now ≡ 10 ∷ rest → ⊥) }
{
    match text.split_first() {
        Some((first, rest)) => {
            if *first == b'\n' {
                return Some(rest);
            }
            None
        }
        None => None,
    }
}

// The entry of a kind with these fields, where it is fit.
fn entry_of(kind: EntryKind, values: &[i64; 9]) -> Option<Entry>
    ensures kind { IfSome result (λ e. e.kind ≡ kind) }
    ensures fields { IfSome result (λ e. fit.numbers_of e ≡ values.now) }
    ensures fit { IfSome result (λ e. fit.IsFit e) }
    ensures none { IfNone result (fit.AreOf (fit.types_of kind) values.now → ⊥) }
{
    if !are_of(&types_of(kind), values) {
        return None;
    }
    Some(made_of(kind, values))
}

// Whether each number is of its type.
fn are_of(types: &[FieldType; 9], values: &[i64; 9]) -> bool
    ensures { IsTrue result ↔ fit.AreOf types.now values.now }
{
    for i in 0..9 {
        if !is_of(types[i], values[i]) {
            return false;
        }
    }
    true
}

// The entry of a kind with fields of their types.
fn made_of(kind: EntryKind, values: &[i64; 9]) -> Entry
    requires { fit.AreOf (fit.types_of kind) values.now }
    ensures kind { result.kind ≡ kind }
    ensures fields { fit.numbers_of result ≡ values.now }
{
    Entry {
        kind,
        proc: values[0] as u8,
        task: values[1] as u32,
        ticks: values[2] as u32,
        object: values[3] as u32,
        a: values[4],
        b: values[5],
        c: values[6],
        d: values[7],
        line: values[8] as u32,
    }
}
