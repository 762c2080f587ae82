// The line of an entry.

ghost use Rattle.std.specs.Prelude.{◌≡◌, ◌++◌, ◌∷◌, [], OnOk, decimal, length};
ghost use Rattle.uc_explain.specs.Explained.{line, parted, maybe, colon, slash, joined};
ghost use Rattle.std.specs.List.{flat_map};
ghost use Rattle.uc_explain.specs.Steps.{waits_of};

use crate::door::Door;
use itoa::Buffer;
use std::alloc::AllocError;

/// Appends the line of the entry with this number, after which this stands at the object.
pub(crate) fn put_line(text: &mut Vec<u8>, number: usize, door: &Door) -> Result<(), AllocError>
    ensures { OnOk result (text.new.items ≡ text.old.items ++ line number door.now) }
{
    put_number(text, number as u64)?;
    text.extend_from_slice(b": inside ")?;
    put_tasks(text, &door.inside)?;
    text.extend_from_slice(b"; waiting ")?;
    put_calls(text, &door.waiting)?;
    text.extend_from_slice(b"; stacked ")?;
    put_tasks(text, &door.stacked)?;
    text.extend_from_slice(b"; blocked ")?;
    put_waits(text, &door.conds, &door.waits)?;
    text.extend_from_slice(b"; open ")?;
    put_accept(text, door.accept)?;
    text.extend_from_slice(b"; next ")?;
    put_next(text, door.next())?;
    text.push(b'\n')?;
    Ok(())
}

// Appends tasks parted by spaces.
fn put_tasks(text: &mut Vec<u8>, tasks: &[u32]) -> Result<(), AllocError>
    ensures { OnOk result (text.new.items ≡ text.old.items ++ parted decimal tasks.now) }
{
    match tasks.split_first() {
        None => {
            text.push(b'-')?;
            Ok(())
        }
        Some((first, rest)) => {
            put_number(text, u64::from(*first))?;
            for task in rest {
                text.push(b' ')?;
                put_number(text, u64::from(*task))?;
            }
            Ok(())
        }
    }
}

// Appends calls parted by spaces.
fn put_calls(text: &mut Vec<u8>, calls: &[(u32, u8)]) -> Result<(), AllocError>
    ensures { OnOk result (text.new.items ≡ text.old.items ++ parted colon calls.now) }
{
    match calls.split_first() {
        None => {
            text.push(b'-')?;
            Ok(())
        }
        Some((first, rest)) => {
            put_joined(text, u64::from(first.0), b':', u64::from(first.1))?;
            for call in rest {
                text.push(b' ')?;
                put_joined(text, u64::from(call.0), b':', u64::from(call.1))?;
            }
            Ok(())
        }
    }
}

// Appends those that are blocked parted by spaces, each with its condition.
fn put_waits(text: &mut Vec<u8>, conds: &[u64], waits: &[(u32, i64)]) -> Result<(), AllocError>
    requires { length conds.now ≡ length waits.now }
    ensures { OnOk result (text.new.items
        ≡ text.old.items ++ parted (λ b. colon (b.1, b.0)) (waits_of conds.now waits.now)) }
{
    match (conds.split_first(), waits.split_first()) {
        (Some((cond, conds)), Some((wait, waits))) => {
            put_joined(text, *cond, b':', u64::from(wait.0))?;
            put_more_waits(text, conds, waits)?;
            Ok(())
        }
        _ => {
            text.push(b'-')?;
            Ok(())
        }
    }
}

// Appends more of them, each behind a space.
fn put_more_waits(text: &mut Vec<u8>, conds: &[u64], waits: &[(u32, i64)]) -> Result<(), AllocError>
    requires { length conds.now ≡ length waits.now }
    ensures { OnOk result (text.new.items
        ≡ text.old.items ++ flat_map (λ b. 32 ∷ colon (b.1, b.0)) (waits_of conds.now waits.now)) }
{
    for (i, wait) in waits.iter().enumerate() {
        text.push(b' ')?;
        put_joined(text, conds[i], b':', u64::from(wait.0))?;
    }
    Ok(())
}

// Appends the accept that is open.
fn put_accept(text: &mut Vec<u8>, accept: Option<(u64, u64)>) -> Result<(), AllocError>
    ensures { OnOk result (text.new.items ≡ text.old.items ++ maybe colon accept) }
{
    match accept {
        None => {
            text.push(b'-')?;
            Ok(())
        }
        Some((site, mask)) => {
            put_joined(text, site, b':', mask)?;
            Ok(())
        }
    }
}

// Appends who is let in next, and the way.
fn put_next(text: &mut Vec<u8>, next: Option<(u32, u8)>) -> Result<(), AllocError>
    ensures { OnOk result (text.new.items ≡ text.old.items ++ maybe slash next) }
{
    match next {
        None => {
            text.push(b'-')?;
            Ok(())
        }
        Some((task, way)) => {
            put_joined(text, u64::from(task), b'/', u64::from(way))?;
            Ok(())
        }
    }
}

// Appends two numbers with a byte between them.
fn put_joined(text: &mut Vec<u8>, left: u64, byte: u8, right: u64) -> Result<(), AllocError>
    ensures { OnOk result (text.new.items ≡ text.old.items ++ joined byte left right) }
{
    put_number(text, left)?;
    text.push(byte)?;
    put_number(text, right)?;
    Ok(())
}

// Appends a number.
fn put_number(text: &mut Vec<u8>, number: u64) -> Result<(), AllocError>
    ensures { OnOk result (text.new.items ≡ text.old.items ++ decimal number) }
{
    let mut buffer = Buffer::new();
    text.extend_from_slice(buffer.format(number).as_bytes())?;
    Ok(())
}
