// Marks and their rows.

ghost use Rattle.std.specs.Prelude.{◌≡◌, ◌<◌, ◌+◌, ◌^◌, ℕ, List, ◌∷◌, length, reverse, Some};
ghost use Rattle.uc_code.specs.declared.rows.CodeMark.{CodeMark};
ghost use Rattle.uc_code.specs.Layout.{under, handlers};
ghost use Rattle.uc_code.specs.OpenRows.{first_in, name_of, row_in, opening_mark, opening_kind, opening_event, opening_bound, entry_in, closed_rows, handled_rows, is_rowless, seen_at, seen_row};

use crate::rows::{ANY_EVENT, CodeMark, Handler, HandlerRow, NO_EVENT, Opening, RowKind};

/// The mark of a row that is opened.
pub(crate) fn mark_of(opening: Opening, row: u32) -> CodeMark
    ensures { result ≡ opening_mark opening row }
{
    match opening {
        Opening::Main {
            main,
            routine,
            line,
        } => CodeMark::Finish {
            main,
            routine,
            line,
            row,
        },
        Opening::Whole { leave } => CodeMark::Whole { leave, row },
        Opening::Handler => CodeMark::Guard { row },
        Opening::Object { what, line } => CodeMark::Clean { what, line, row },
        Opening::Part => CodeMark::Part { row },
        Opening::Elements => CodeMark::Elements { row },
        Opening::Outward { below } => CodeMark::Outward { below, row },
    }
}

pub(crate) fn kind_of(opening: Opening) -> RowKind
    ensures { result ≡ opening_kind opening }
{
    match opening {
        Opening::Main { .. } => RowKind::CleanUp,
        Opening::Whole { .. } => RowKind::CleanUp,
        Opening::Handler => RowKind::Catch,
        Opening::Object { .. } => RowKind::CleanUp,
        Opening::Part => RowKind::CleanUp,
        Opening::Elements => RowKind::CleanUp,
        Opening::Outward { .. } => RowKind::CleanUp,
    }
}

pub(crate) fn event_of(opening: Opening) -> u8
    ensures { result ≡ opening_event opening }
{
    match opening {
        Opening::Main { .. } => ANY_EVENT,
        Opening::Whole { .. } => ANY_EVENT,
        Opening::Handler => ANY_EVENT,
        Opening::Object { .. } => ANY_EVENT,
        Opening::Part => ANY_EVENT,
        Opening::Elements => ANY_EVENT,
        Opening::Outward { .. } => NO_EVENT,
    }
}

/// The rows around a new one are below this number, where there are so many rows.
pub(crate) fn bound_of(opening: Opening, rows: u32) -> u32
    ensures { result ≡ opening_bound opening rows }
{
    match opening {
        Opening::Main { .. } => rows,
        Opening::Whole { .. } => rows,
        Opening::Handler => rows,
        Opening::Object { .. } => rows,
        Opening::Part => rows,
        Opening::Elements => rows,
        Opening::Outward { below } => below,
    }
}

/// The name of a row.
pub(crate) fn name_of(row: Option<u32>) -> u32
    requires { (number : ℕ) → row ≡ Some number → number + 1 < 2 ^ 32 }
    ensures { result ≡ name_of row }
{
    match row {
        Some(number) => number + 1,
        None => 0,
    }
}

/// The row of the innermost mark.
pub(crate) fn row_of(marks: &[CodeMark]) -> Option<u32>
    ensures { result ≡ row_in (reverse marks.now) }
{
    match marks.last() {
        Some(mark) => row_at(*mark),
        None => None,
    }
}

fn row_at(mark: CodeMark) -> Option<u32>
    ensures { (ms : List CodeMark) → result ≡ row_in (mark ∷ ms) }
{
    match mark {
        CodeMark::Body { .. } => None,
        CodeMark::Finish { row, .. } => Some(row),
        CodeMark::Loop { .. } => None,
        CodeMark::Whole { row, .. } => Some(row),
        CodeMark::Guard { row } => Some(row),
        CodeMark::Clean { row, .. } => Some(row),
        CodeMark::Part { row } => Some(row),
        CodeMark::Elements { row } => Some(row),
        CodeMark::Outward { row, .. } => Some(row),
    }
}

/// Whether the innermost mark may be left as it is.
pub(crate) fn has_no_row(marks: &[CodeMark]) -> bool
    ensures { result ≡ is_rowless (reverse marks.now) }
{
    match marks.last() {
        Some(mark) => is_rowless(*mark),
        None => false,
    }
}

fn is_rowless(mark: CodeMark) -> bool
    ensures { (ms : List CodeMark) → result ≡ is_rowless (mark ∷ ms) }
{
    match mark {
        CodeMark::Body { .. } => true,
        CodeMark::Finish { .. } => false,
        CodeMark::Loop { .. } => true,
        CodeMark::Whole { .. } => false,
        CodeMark::Guard { .. } => false,
        CodeMark::Clean { .. } => false,
        CodeMark::Part { .. } => false,
        CodeMark::Elements { .. } => false,
        CodeMark::Outward { .. } => false,
    }
}

/// The innermost row of marks that is below this number.
pub(crate) fn row_below(marks: &[CodeMark], below: u32) -> Option<u32>
    ensures { result ≡ first_in (under below (handlers (reverse marks.now))) }
{
    let mut bound = below;
    let mut i = marks.len();
    while i > 0 {
        i -= 1;
        match see(marks[i], bound) {
            RowView::Row(row) => return Some(row),
            RowView::Bound(next) => bound = next,
        }
    }
    None
}

/// What a mark tells of the rows below a number: the innermost of them, or a number below which those of the other marks are.
#[derive(Clone, Copy)]
pub(crate) enum RowView {
    Row(u32),
    Bound(u32),
}

fn see(mark: CodeMark, bound: u32) -> RowView
    ensures { result ≡ seen_at mark bound }
{
    match mark {
        CodeMark::Body { .. } => RowView::Bound(bound),
        CodeMark::Finish { row, .. } => seen_row(row, bound),
        CodeMark::Loop { .. } => RowView::Bound(bound),
        CodeMark::Whole { row, .. } => seen_row(row, bound),
        CodeMark::Guard { row } => seen_row(row, bound),
        CodeMark::Clean { row, .. } => seen_row(row, bound),
        CodeMark::Part { row } => seen_row(row, bound),
        CodeMark::Elements { row } => seen_row(row, bound),
        CodeMark::Outward { below, .. } => RowView::Bound(bound.min(below)),
    }
}

// The row, if it is below the bound.
fn seen_row(row: u32, bound: u32) -> RowView
    ensures { result ≡ seen_row row bound }
{
    if row < bound {
        RowView::Row(row)
    } else {
        RowView::Bound(bound)
    }
}

/// A row ends here, and its clean-up begins at this op.
pub(crate) fn close_row(rows: &mut Vec<HandlerRow>, number: u32, here: u32, entry: u32)
    ensures { rows.new.items ≡ closed_rows here entry number rows.old.items }
{
    let at = number as usize;
    if at < rows.len() {
        let row = rows[at];
        rows[at] = HandlerRow {
            from: row.from,
            to: here,
            outer: row.outer,
            kind: row.kind,
            event: row.event,
            rest: row.rest,
            entry,
        };
    }
}

/// Where the code begins that the row of the innermost mark names, once that is closed: the row of a handler names none until the handler
/// is laid out.
pub(crate) fn entry_of(marks: &[CodeMark], entry: u32) -> u32
    ensures { result ≡ entry_in (reverse marks.now) entry }
{
    match marks.last() {
        Some(mark) => entry_at(*mark, entry),
        None => entry,
    }
}

fn entry_at(mark: CodeMark, entry: u32) -> u32
    ensures { (ms : List CodeMark) → result ≡ entry_in (mark ∷ ms) entry }
{
    match mark {
        CodeMark::Body { .. } => entry,
        CodeMark::Finish { .. } => entry,
        CodeMark::Loop { .. } => entry,
        CodeMark::Whole { .. } => entry,
        CodeMark::Guard { .. } => 0,
        CodeMark::Clean { .. } => entry,
        CodeMark::Part { .. } => entry,
        CodeMark::Elements { .. } => entry,
        CodeMark::Outward { .. } => entry,
    }
}

/// A row gets its handler.
pub(crate) fn handle_row(rows: &mut Vec<HandlerRow>, number: u32, handler: Handler)
    ensures { rows.new.items ≡ handled_rows handler number rows.old.items }
{
    let at = number as usize;
    if at < rows.len() {
        let row = rows[at];
        rows[at] = HandlerRow {
            from: row.from,
            to: row.to,
            outer: row.outer,
            kind: handler.kind,
            event: handler.event,
            rest: handler.rest,
            entry: handler.entry,
        };
    }
}

/// How many rows of marks are below this number.
pub(crate) fn rows_below(marks: &[CodeMark], below: u32) -> usize
    ensures { result ≡ length (under below (handlers (reverse marks.now))) }
{
    let mut count = 0;
    let mut bound = below;
    let mut i = marks.len();
    while i > 0 {
        i -= 1;
        match see(marks[i], bound) {
            RowView::Row(_) => count += 1,
            RowView::Bound(next) => bound = next,
        }
    }
    count
}
