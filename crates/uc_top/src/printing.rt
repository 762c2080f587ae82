// What a journal prints.

ghost use Rattle.std.specs.Prelude.{◌≡◌, ◌++◌, IfOk, OnOk, [], slice_index_or};
ghost use Rattle.uc_acts.specs.Journal.{number};
ghost use Rattle.uc_acts.specs.Texts.{printed, printed_by, bytes_of, byte_of};

use itoa::Buffer;
use std::alloc::{AllocError, Global};
use uc_entry::entry::{Entry, EntryKind};
use uc_tree::name::Text;

#[tactic(auto, using(crate::proofs::Prints::printed_more))]
/// The bytes that the print entries of a journal print, of a program with these text literals.
pub(crate) fn printed_bytes(
    alloc: Global,
    texts: &[Text],
    journal: &[Entry],
) -> Result<Vec<u8>, AllocError>
    ensures { IfOk result (λ bytes. bytes.items ≡ printed texts.now journal.now) }
{
    let mut bytes = Vec::new(alloc);
    for entry in journal {
        print_entry(&mut bytes, texts, entry)?;
    }
    Ok(bytes)
}

// Appends what an entry prints.
fn print_entry(bytes: &mut Vec<u8>, texts: &[Text], entry: &Entry) -> Result<(), AllocError>
    ensures { OnOk result (bytes.new.items
        ≡ bytes.old.items ++ printed_by texts.now entry.now.kind entry.now) }
{
    if entry.kind == EntryKind::Print {
        print_item(bytes, texts, entry.a, entry.b)?;
    }
    Ok(())
}

// Appends the bytes of an item.
fn print_item(bytes: &mut Vec<u8>, texts: &[Text], form: i64, value: i64) -> Result<(), AllocError>
    ensures { OnOk result (bytes.new.items ≡ bytes.old.items ++ bytes_of texts.now form value) }
{
    if form == 0 {
        let mut buffer = Buffer::new();
        bytes.extend_from_slice(buffer.format(value).as_bytes())?;
    } else if form == 1 {
        bytes.push(character(value))?;
    } else if form > 1 {
        bytes.extend_from_slice(text_of(texts, value))?;
    }
    Ok(())
}

// The byte of a character.
fn character(value: i64) -> u8
    ensures { result ≡ byte_of value }
{
    match u8::try_from(value) {
        Ok(byte) => byte,
        Err(_) => 0,
    }
}

// The text of this number.
fn text_of(texts: &[Text], value: i64) -> &[u8]
    ensures { result.now ≡ slice_index_or texts.now (number value) [] }
{
    match usize::try_from(value) {
        Ok(place) => text_at(texts, place),
        Err(_) => text_at(texts, 0),
    }
}

fn text_at(texts: &[Text], place: usize) -> &[u8]
    ensures { result.now ≡ slice_index_or texts.now place [] }
{
    if place < texts.len() {
        return texts[place].bytes();
    }
    b""
}
