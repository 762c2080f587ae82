// `Size` of routines, classes and programs.

ghost use Rattle.std.specs.Prelude.{◌≡◌, ◌^◌, ◌<◌};
ghost use Rattle.uc_tree.specs.Capped.{capped};
ghost use Rattle.uc_tree.specs.Sizes.{inits_size, routine_size, member_form_size, members_size, item_size, items_size, routine_exits, member_form_exits, members_exits, item_exits, items_exits, program_size};
ghost use Rattle.uc_tree.specs.ProgramViews.{member_form_at};

use crate::exits::exits_of_stmts;
use crate::size::{size_of_declarators, size_of_expr, size_of_exprs, size_of_stmts};
use uc_tree::class::{Init, Member, MemberForm, Routine};
use uc_tree::program::{Item, ItemForm, Program};

fn size_of_inits(inits: &[Init]) -> u64
    ensures { result ≡ capped (inits_size inits.now) }
{
    let mut size: u64 = 0;
    for init in inits {
        size = size.saturating_add(size_of_exprs(&init.args).saturating_add(1));
    }
    size
}

fn size_of_routine(routine: &Routine) -> u64
    ensures { result ≡ capped (routine_size routine.now) }
{
    let params = routine.sig.params.len() as u64;
    params
        .saturating_add(size_of_inits(&routine.inits))
        .saturating_add(size_of_stmts(&routine.body))
}

fn size_of_member_form(form: &MemberForm) -> u64
    ensures { result ≡ capped (member_form_size (member_form_at form.now)) }
{
    match form {
        MemberForm::Fields { declarators, .. } => size_of_declarators(declarators),
        MemberForm::Routine { routine } => size_of_routine(routine),
        MemberForm::Proto { sig } => sig.params.len() as u64,
    }
}

fn size_of_members(members: &[Member]) -> u64
    ensures { result ≡ capped (members_size members.now) }
{
    let mut size: u64 = 0;
    for member in members {
        size = size.saturating_add(size_of_member_form(&member.form).saturating_add(1));
    }
    size
}

fn size_of_item(item: &Item) -> u64
    ensures { result ≡ capped (item_size item.now) }
{
    match &item.form {
        ItemForm::Class { class } => size_of_members(&class.members).saturating_add(1),
        ItemForm::Routine { routine } => size_of_routine(routine).saturating_add(1),
        ItemForm::Constant { constant } => size_of_expr(&constant.value).saturating_add(1),
        ItemForm::Proto { sig } => (sig.params.len() as u64).saturating_add(1),
        ItemForm::Forward { .. } => 1,
        ItemForm::Using { .. } => 1,
    }
}

fn size_of_items(items: &[Item]) -> u64
    ensures { result ≡ capped (items_size items.now) }
{
    let mut size: u64 = 0;
    for item in items {
        size = size.saturating_add(size_of_item(item));
    }
    size
}

fn exits_of_routine(routine: &Routine) -> u64
    requires { routine_size routine.now < 2 ^ 64 }
    ensures { result ≡ capped (routine_exits routine.now) }
{
    exits_of_stmts(&routine.body, 0)
}

fn exits_of_member_form(form: &MemberForm) -> u64
    requires { member_form_size (member_form_at form.now) < 2 ^ 64 }
    ensures { result ≡ capped (member_form_exits (member_form_at form.now)) }
{
    match form {
        MemberForm::Fields { .. } => 0,
        MemberForm::Routine { routine } => exits_of_routine(routine),
        MemberForm::Proto { .. } => 0,
    }
}

fn exits_of_members(members: &[Member]) -> u64
    requires { members_size members.now < 2 ^ 64 }
    ensures { result ≡ capped (members_exits members.now) }
{
    let mut size: u64 = 0;
    for member in members {
        size = size.saturating_add(exits_of_member_form(&member.form));
    }
    size
}

fn exits_of_item(item: &Item) -> u64
    requires { item_size item.now < 2 ^ 64 }
    ensures { result ≡ capped (item_exits item.now) }
{
    match &item.form {
        ItemForm::Class { class } => exits_of_members(&class.members),
        ItemForm::Routine { routine } => exits_of_routine(routine),
        ItemForm::Constant { .. } => 0,
        ItemForm::Proto { .. } => 0,
        ItemForm::Forward { .. } => 0,
        ItemForm::Using { .. } => 0,
    }
}

fn exits_of_items(items: &[Item]) -> u64
    requires { items_size items.now < 2 ^ 64 }
    ensures { result ≡ capped (items_exits items.now) }
{
    let mut size: u64 = 0;
    for item in items {
        size = size.saturating_add(exits_of_item(item));
    }
    size
}

/// `Size` of a program, or the greatest number where `Size` is greater.
pub fn size_of_program(program: &Program) -> u64
    ensures { result ≡ capped (program_size program.now) }
{
    let size = size_of_items(&program.items);
    // With this test the declarators in scope fit, since each of them counts.
    if size == u64::MAX {
        return size;
    }
    size.saturating_add(exits_of_items(&program.items))
}
