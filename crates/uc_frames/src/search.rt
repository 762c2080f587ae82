// Searches among the handlers of an op, from the innermost one outwards.

ghost use Rattle.std.specs.Prelude.{◌≡◌, ◌≤◌, ◌<◌, ◌-◌, ◌^◌, ◌++◌, [], Some, length, true, false, MatchOption};
ghost use Rattle.uc_code.specs.Layout.{chain};
ghost use Rattle.uc_frames.specs.Searches.{catches as catches_by, resumes as resumes_by, cleans as cleans_by, is_named as is_named_by, is_sought, row_takes, behind_row, first_in, own_row, named, last_of, chain_within, IsCovered, IsHandler, IsSoughtAt};

use uc_code::code::Code;
use uc_code::rows::{ANY_EVENT, HandlerRow, NO_EVENT, RowKind};

/// What is looked for: a handler that catches an event or takes it as a resumption, or what stops an unwinding, which is a
/// clean-up or the row of this number.
#[derive(Clone, Copy)]
pub enum HandlerQuery {
    Catch(u8),
    Resume(u8),
    Stop(Option<u32>),
}

/// The first of the handlers of the op before `next` that is looked for, by the number of its row.
pub fn first_handler(code: &Code, next: u32, sought: HandlerQuery) -> Option<u32>
    ensures { result ≡ first_in sought code.now.rows (chain code.now.rows next) }
{
    let number = covering(code, next);
    if number == 0 {
        return None;
    }
    first_from(code.rows(), number, sought)
}

/// The same within so many of them, where all handlers of a guarded block are passed over together.
pub fn first_within(code: &Code, next: u32, rest: u32, sought: HandlerQuery) -> Option<u32>
    ensures { result ≡ first_in sought code.now.rows (chain_within rest code.now.rows next) }
{
    let rows = code.rows();
    let number = last_from(rows, covering(code, next), rest as usize);
    first_from(rows, number, sought)
}

/// Whether a row covers the op before `next`. Where none does, the op has no handlers.
#[inline(always)]
pub fn is_covered(code: &Code, next: u32) -> bool
    ensures none { result ≡ false → chain code.now.rows next ≡ [] }
    ensures some { result ≡ true → IsCovered code.now.rows next }
{
    if code.covering(next) == 0 {
        return false;
    }
    true
}

// The newest row that covers the op before `next`, by its number plus 1; 0 where there is none.
fn covering(code: &Code, next: u32) -> usize
    ensures near { result ≤ length code.now.rows }
    ensures chain { named code.now.rows result ≡ chain code.now.rows next }
{
    code.covering(next) as usize
}

// The first one of a row and those outwards of it.
fn first_from(rows: &[HandlerRow], number: usize, sought: HandlerQuery) -> Option<u32>
    requires few { length rows.now < 2 ^ 32 }
    requires near { number ≤ length rows.now }
    ensures { result ≡ first_in sought rows.now (named rows.now number) }
{
    let mut at = number;
    while 0 < at {
        if is_sought_at(rows, at, sought) {
            return Some((at - 1) as u32);
        }
        at = outer_of(rows, at);
    }
    None
}

// Whether a row, by its number plus 1, is one that is looked for.
fn is_sought_at(rows: &[HandlerRow], at: usize, sought: HandlerQuery) -> bool
    requires few { length rows.now < 2 ^ 32 }
    requires first { 0 < at }
    requires near { at ≤ length rows.now }
    ensures { IsSoughtAt sought rows.now (at - 1) result }
{
    match handler_at(rows, at) {
        None => false,
        Some(row) => seeks(sought, (at - 1) as u32, row),
    }
}

// The row from which on so many stand, of a row and those outwards of it; 0 where there is none.
fn last_from(rows: &[HandlerRow], number: usize, rest: usize) -> usize
    requires near { number ≤ length rows.now }
    ensures near { result ≤ length rows.now }
    ensures last { named rows.now result ≡ last_of rows.now rest (named rows.now number) }
{
    let mut at = number;
    let mut count = count_from(rows, number);
    let mut round = count;
    while 0 < at {
        let outer = outer_of(rows, at);
        if let Some(row) = handler_at(rows, at) {
            if count == rest && rest <= round {
                return at;
            }
            count -= 1;
            round = round_behind(row, count);
        }
        at = outer;
    }
    0
}

// How many rows are a row and those outwards of it.
fn count_from(rows: &[HandlerRow], number: usize) -> usize
    requires { number ≤ length rows.now }
    ensures { result ≡ length (named rows.now number) }
{
    let mut count = 0;
    let mut at = number;
    while 0 < at {
        if handler_at(rows, at).is_some() {
            count += 1;
        }
        at = outer_of(rows, at);
    }
    count
}

// The row by its number plus 1, where it is one that a search sees.
fn handler_at(rows: &[HandlerRow], at: usize) -> Option<HandlerRow>
    requires first { 0 < at }
    requires near { at ≤ length rows.now }
    ensures { MatchOption result (own_row rows.now (at - 1) ≡ []) (λ row. IsHandler rows.now (at - 1) row) }
{
    let row = rows[at - 1];
    match row.kind {
        RowKind::Catch => Some(row),
        RowKind::CatchResume => Some(row),
        RowKind::CleanUp => {
            if row.event == NO_EVENT {
                None
            } else {
                Some(row)
            }
        }
    }
}

// The next row outwards, by the same numbers.
fn outer_of(rows: &[HandlerRow], at: usize) -> usize
    requires first { 0 < at }
    requires near { at ≤ length rows.now }
    ensures further { result < at }
    ensures outer { named rows.now at ≡ own_row rows.now (at - 1) ++ named rows.now result }
{
    let outer = rows[at - 1].outer as usize;
    if outer < at { outer } else { 0 }
}

// How many rows stand round what is next behind a row that is passed over, before so many.
fn round_behind(row: HandlerRow, count: usize) -> usize
    ensures { result ≡ behind_row (Some row) count }
{
    match row.kind {
        RowKind::CleanUp => count,
        RowKind::Catch => row.rest as usize,
        RowKind::CatchResume => row.rest as usize,
    }
}

fn seeks(sought: HandlerQuery, number: u32, row: HandlerRow) -> bool
    ensures { result ≡ is_sought sought number row }
{
    match sought {
        HandlerQuery::Catch(event) => catches(row.kind) && takes(row, event),
        HandlerQuery::Resume(event) => resumes(row.kind) && takes(row, event),
        HandlerQuery::Stop(named) => is_named(named, number) || cleans(row.kind),
    }
}

fn takes(row: HandlerRow, event: u8) -> bool
    ensures { result ≡ row_takes event row }
{
    row.event == ANY_EVENT || row.event == event
}

fn is_named(named: Option<u32>, number: u32) -> bool
    ensures { result ≡ is_named_by named number }
{
    match named {
        None => false,
        Some(named) => named == number,
    }
}

fn catches(kind: RowKind) -> bool
    ensures { result ≡ catches_by kind }
{
    match kind {
        RowKind::Catch => true,
        RowKind::CatchResume => false,
        RowKind::CleanUp => false,
    }
}

fn resumes(kind: RowKind) -> bool
    ensures { result ≡ resumes_by kind }
{
    match kind {
        RowKind::Catch => false,
        RowKind::CatchResume => true,
        RowKind::CleanUp => false,
    }
}

fn cleans(kind: RowKind) -> bool
    ensures { result ≡ cleans_by kind }
{
    match kind {
        RowKind::Catch => false,
        RowKind::CatchResume => false,
        RowKind::CleanUp => true,
    }
}
