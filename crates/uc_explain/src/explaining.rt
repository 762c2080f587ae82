// The lines that explain a journal at one object.

ghost use Rattle.std.specs.Prelude.{◌≡◌, ◌++◌, IfOk, OnOk};
ghost use Rattle.uc_acts.specs.Fit.{IsFit, AreFit};
ghost use Rattle.uc_explain.specs.Explained.{explained, line_unless};
ghost use Rattle.uc_explain.specs.Shown.{is_same};
ghost use Rattle.uc_explain.specs.Steps.{after};

use crate::door::Door;
use crate::text::put_line;
use std::alloc::{AllocError, Global};
use uc_entry::entry::Entry;

/// One line for each entry that changes what stands at an object: the number of the entry, from 0, and then who is inside, who
/// waits and with which member, who is stacked, who is blocked and on which condition, which accept is open, and who is let in
/// next and which way. The one error is want of memory.
pub fn explain(alloc: Global, journal: &[Entry], object: u32) -> Result<Vec<u8>, AllocError>
    requires { AreFit journal.now }
    ensures { IfOk result (λ text. text.items ≡ explained object journal.now) }
{
    let mut text = Vec::new(alloc);
    let mut before = Door::new(alloc);
    let mut now = Door::new(alloc);
    for (number, e) in journal.iter().enumerate() {
        if e.object == object {
            now.add(e)?;
            put_changed(&mut text, number, e, &mut before, &now)?;
        }
    }
    Ok(text)
}

// Appends the line of an entry where it has changed anything, and adds it to what stood there before.
fn put_changed(
    text: &mut Vec<u8>,
    number: usize,
    e: &Entry,
    before: &mut Door,
    now: &Door,
) -> Result<(), AllocError>
    requires fit { IsFit e.now }
    requires now { now.now ≡ after e.now before.old }
    ensures text { OnOk result (text.new.items
        ≡ text.old.items ++ line_unless (is_same before.old now.now) number now.now) }
    ensures before { OnOk result (before.new ≡ now.now) }
{
    if !is_same(before, now) {
        put_line(text, number, now)?;
        before.add(e)?;
    }
    Ok(())
}

// Whether all that stands there is the same.
fn is_same(left: &Door, right: &Door) -> bool
    ensures { result ≡ is_same left.now right.now }
{
    left.inside == right.inside
        && left.waiting == right.waiting
        && left.stacked == right.stacked
        && left.conds == right.conds
        && left.waits == right.waits
        && left.accept == right.accept
}
