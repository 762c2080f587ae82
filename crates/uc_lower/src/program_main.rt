// The program's main among its routines.

ghost use Rattle.std.specs.Prelude.{◌≡◌, ◌+◌, ◌^◌, ◌≤◌, None, length, IfSome};
ghost use Rattle.uc_tree.specs.Programs.{Program};
ghost use Rattle.uc_tree.specs.Numbering.{items_defined};
ghost use Rattle.uc_tree.specs.ProgramMain.{is_main_item, main_among};
ghost use Rattle.uc_lower.specs.Mains.{routines_in, routines_in_form, routines_in_members};

use uc_tree::class::{Member, MemberForm};
use uc_tree::program::{Item, ItemForm};

fn is_main(item: &Item) -> bool
    ensures { result ≡ is_main_item item.now }
{
    match &item.form {
        ItemForm::Class { .. } => false,
        ItemForm::Routine { routine } => routine.sig.is_main(),
        ItemForm::Constant { .. } => false,
        ItemForm::Proto { .. } => false,
        ItemForm::Forward { .. } => false,
        ItemForm::Using { .. } => false,
    }
}

fn routines_in_form(member: &Member) -> usize
    ensures { result ≡ routines_in_form member.now.form }
{
    match &member.form {
        MemberForm::Fields { .. } => 0,
        MemberForm::Routine { .. } => 1,
        MemberForm::Proto { .. } => 0,
    }
}

fn routines_in_members(members: &[Member]) -> usize
    ensures number { result ≡ routines_in_members members.now }
    ensures few { result ≤ length members.now }
{
    let mut number: usize = 0;
    for member in members {
        number += routines_in_form(member);
    }
    number
}

// How many routines an item is, or has.
fn routines_in(item: &Item) -> usize
    ensures { result ≡ routines_in item.now }
{
    match &item.form {
        ItemForm::Class { class } => routines_in_members(&class.members),
        ItemForm::Routine { .. } => 1,
        ItemForm::Constant { .. } => 0,
        ItemForm::Proto { .. } => 0,
        ItemForm::Forward { .. } => 0,
        ItemForm::Using { .. } => 0,
    }
}

// The number behind so many routines more.
fn number_behind(number: u32, more: usize) -> Option<u32>
    ensures number { IfSome result (λ n. n ≡ number + more) }
    ensures none { result ≡ None → 2 ^ 32 ≤ number + more }
{
    match u32::try_from(more) {
        Ok(more) => number.checked_add(more),
        Err(_) => None,
    }
}

/// The number of the program's main among its routines; where there is no main it is that of no routine. None only where there are
/// 2^32 routines or more.
pub fn number_of_main(items: &[Item]) -> Option<u32>
    ensures number { IfSome result (λ n. (p : Program) → n ≡ main_among p items.now) }
    ensures none { result ≡ None → (p : Program) → 2 ^ 32 ≤ length (items_defined p items.now) }
{
    let mut number: u32 = 0;
    for item in items {
        if is_main(item) {
            return Some(number);
        }
        number = number_behind(number, routines_in(item))?;
    }
    Some(number)
}
