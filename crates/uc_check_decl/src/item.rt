// Tests of items: prototypes, forward classes and what is defined outside of classes.

ghost use Rattle.std.specs.Prelude.{◌≡◌, IfOk, MatchOption, None, Some, if◌then◌else◌, nat_eq, take};
ghost use Rattle.std.specs.List.{list_any};
ghost use Rattle.uc_tree.specs.ProgramViews.{member_form_at};
ghost use Rattle.uc_rules.specs.ItemBreaks.{has_role, is_defined, is_definition, is_member_definition, is_new_item, is_only_one, is_program_main, is_sound_item, is_sound_member, is_well_declared, item_mains, item_name, item_pos, mains_in, outer_name};
ghost use Rattle.uc_rules.specs.ProgramVisits.{home_of, owner_home};

use crate::sig::{has_class_name, is_program_main, same_role};
use std::alloc::{AllocError, Global};
use uc_check_index::index::Index;
use uc_rules::rules::{OwnClass, Sort};
use uc_tree::class::{Class, Member, MemberForm, Sig};
use uc_tree::kinds::Owner;
use uc_tree::name::Name;
use uc_tree::pos::Pos;
use uc_tree::program::{Item, ItemForm};
use uc_types::bases::is_given;
use uc_types::sort::is_plain;
use uc_types::tables::Tables;

fn has_role(sig: &Sig, form: &MemberForm) -> bool
    ensures { result ≡ has_role sig.now (member_form_at form.now) }
{
    match form {
        MemberForm::Fields { .. } => false,
        MemberForm::Routine { routine } => same_role(sig.role, routine.sig.role),
        MemberForm::Proto { sig: proto } => same_role(sig.role, proto.role),
    }
}

fn item_name(item: &Item) -> Option<&Name>
    ensures { MatchOption result (item_name item.now ≡ None) (λ n. item_name item.now
        ≡ Some n.now) }
{
    match &item.form {
        ItemForm::Class { class } => Some(&class.name),
        ItemForm::Routine { routine } => outer_name(&routine.sig),
        ItemForm::Constant { constant } => Some(&constant.name),
        ItemForm::Proto { sig } => Some(&sig.name),
        ItemForm::Forward { forward } => Some(&forward.name),
        ItemForm::Using { .. } => None,
    }
}

fn outer_name(sig: &Sig) -> Option<&Name>
    ensures { MatchOption result (outer_name sig.now ≡ None) (λ n. outer_name sig.now
        ≡ Some n.now) }
{
    match &sig.owner {
        Owner::Here => Some(&sig.name),
        _ => None,
    }
}

/// The place of an item.
pub fn item_pos(item: &Item) -> Pos
    ensures { result ≡ item_pos item.now }
{
    match &item.form {
        ItemForm::Class { class } => class.pos,
        ItemForm::Routine { routine } => routine.sig.pos,
        ItemForm::Constant { constant } => constant.pos,
        ItemForm::Proto { sig } => sig.pos,
        ItemForm::Forward { forward } => forward.pos,
        ItemForm::Using { pos } => *pos,
    }
}

/// Whether no item before this one declares its name too.
pub fn is_new_item(index: &Index, item: &Item, place: usize) -> bool
    ensures { result ≡ is_new_item index.now item.now place (item_name item.now) }
{
    match item_name(item) {
        Some(name) => {
            let proto = index.has_proto(name);
            !(index.has_clash(proto, name, item, place) || is_given(name))
        }
        None => true,
    }
}

fn is_well_declared(
    alloc: Global,
    index: &Index,
    sig: &Sig,
    place: usize,
) -> Result<bool, AllocError>
    ensures { IfOk result (λ b. b ≡ is_well_declared index.now sig.now place) }
{
    if !index.has_proto(&sig.name) {
        return Ok(true);
    }
    let declared = index.declares_sig(alloc, sig)?;
    Ok(declared && !index.defines_name(&sig.name, place))
}

fn home_of(sort: Sort) -> Option<OwnClass>
    ensures { result ≡ home_of sort }
{
    match sort {
        Sort::Object { class, kind } => Some(OwnClass { class, kind }),
        _ => None,
    }
}

/// The class that is the owner; none where there is no such class.
pub fn owner_home(tables: &Tables, owner: &Owner) -> Option<OwnClass>
    ensures { result ≡ owner_home tables.now owner.now }
{
    match owner {
        Owner::Class(name) => {
            let sort = tables.class_named(name)?;
            home_of(sort)
        }
        _ => None,
    }
}

fn is_member_definition(
    alloc: Global,
    index: &Index,
    class: &Name,
    home: Option<OwnClass>,
    sig: &Sig,
    place: usize,
) -> Result<bool, AllocError>
    ensures { IfOk result (λ b. b ≡ is_member_definition index.now class.now home sig.now place) }
{
    match home {
        Some(home) => {
            let declared = index.is_declared_in(alloc, home.class, sig)?;
            let again = index.defines_member(alloc, class, sig, place)?;
            Ok(has_class_name(class, sig) && (declared && !again))
        }
        None => Ok(false),
    }
}

fn is_definition(
    alloc: Global,
    index: &Index,
    owner: &Owner,
    home: Option<OwnClass>,
    sig: &Sig,
    place: usize,
) -> Result<bool, AllocError>
    requires { home ≡ owner_home index.now owner.now }
    ensures { IfOk result (λ b. b ≡ is_definition index.now owner.now sig.now place) }
{
    match owner {
        Owner::Here => is_well_declared(alloc, index, sig, place),
        Owner::Main => Ok(is_program_main(sig)),
        Owner::Class(name) => is_member_definition(alloc, index, name, home, sig, place),
    }
}

fn is_only_one(class: &Class, sig: &Sig, member: usize) -> bool
    ensures { result ≡ is_only_one class.now sig.now member }
{
    is_plain(sig.role) || !any_has_role(sig, &class.members, member)
}

fn any_has_role(sig: &Sig, members: &[Member], count: usize) -> bool
    ensures { result ≡ list_any (λ m. has_role sig.now m.form) (take count members.now) }
{
    members.iter().take(count).any(|m| has_role(sig, &m.form))
}

fn is_defined(
    alloc: Global,
    index: &Index,
    class: &Class,
    proto: bool,
    sig: &Sig,
) -> Result<bool, AllocError>
    ensures { IfOk result (λ b. b ≡ is_defined index.now class.now proto sig.now) }
{
    if proto {
        index.defines_member_sig(alloc, &class.name, sig)
    } else {
        Ok(true)
    }
}

/// Whether a routine or prototype in a class has the right name, is the only one of its role, and is defined.
pub fn is_sound_member(
    alloc: Global,
    index: &Index,
    class: &Class,
    proto: bool,
    sig: &Sig,
    member: usize,
) -> Result<bool, AllocError>
    ensures { IfOk result (λ b. b ≡ is_sound_member index.now class.now proto sig.now member) }
{
    let defined = is_defined(alloc, index, class, proto, sig)?;
    Ok(has_class_name(&class.name, sig) && (is_only_one(class, sig, member) && defined))
}

/// Whether what is declared by an item, by its place, is defined as it has to be.
pub fn is_sound_item(
    alloc: Global,
    tables: &Tables,
    index: &Index,
    item: &Item,
    place: usize,
) -> Result<bool, AllocError>
    requires { index.now ≡ tables.now }
    ensures { IfOk result (λ b. b ≡ is_sound_item index.now item.now place) }
{
    match &item.form {
        ItemForm::Routine { routine } => {
            let sig = &routine.sig;
            let home = owner_home(tables, &sig.owner);
            is_definition(alloc, index, &sig.owner, home, sig, place)
        }
        ItemForm::Proto { sig } => index.defines_sig(alloc, sig),
        ItemForm::Forward { forward } => index.has_class_of(alloc, forward),
        ItemForm::Class { .. } | ItemForm::Constant { .. } | ItemForm::Using { .. } => Ok(true),
    }
}

fn item_mains(item: &Item) -> usize
    ensures { result ≡ item_mains item.now }
{
    match &item.form {
        ItemForm::Routine { routine } => main_count(&routine.sig),
        _ => 0,
    }
}

fn main_count(sig: &Sig) -> usize
    ensures { result ≡ (if is_program_main sig.now then 1 else 0) }
{
    if is_program_main(sig) { 1 } else { 0 }
}

/// Whether just one item is the program's main.
pub fn has_one_main(items: &[Item]) -> bool
    ensures { result ≡ nat_eq (mains_in items.now) 1 }
{
    let mut count = 0;
    for item in items {
        count += item_mains(item);
    }
    count == 1
}
