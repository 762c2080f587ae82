// The numbers of mutex members.

ghost use Rattle.std.specs.Prelude.{◌≡◌, ◌≤◌, IfOk, OnOk, map, option_map, take, length};
ghost use Rattle.std.specs.List.{list_any};
ghost use Rattle.uc_tree.specs.declared.limits.TheConstants.{MEMBERS};
ghost use Rattle.uc_tree.specs.Names.{same_name};
ghost use Rattle.uc_tree.specs.Numbering.{is_mutex, is_public, is_exclusive, is_plain, sig_name, member_form_name, exclusive_name, mutex_members, place_from, with_name, member_number};
ghost use Rattle.uc_tree.specs.Programs.{Class};
ghost use Rattle.uc_tree.specs.ProgramViews.{member_form_at};

use std::alloc::{AllocError, Global};
use uc_tree::class::{Class, Member, MemberForm, Sig};
use uc_tree::kinds::{Access, Kind, MutexMark, Role};
use uc_tree::limits::MEMBERS;
use uc_tree::name::Name;

fn is_mutex(kind: Kind) -> bool
    ensures { result ≡ is_mutex kind }
{
    match kind {
        Kind::Class => false,
        Kind::Coroutine => false,
        Kind::Monitor => true,
        Kind::Cormonitor => true,
        Kind::Task => true,
        Kind::Event => false,
    }
}

fn is_public(access: Access) -> bool
    ensures { result ≡ is_public access }
{
    match access {
        Access::Public => true,
        Access::Private => false,
        Access::Protected => false,
    }
}

fn is_exclusive(mark: MutexMark, access: Access) -> bool
    ensures { result ≡ is_exclusive mark access }
{
    match mark {
        MutexMark::Unmarked => is_public(access),
        MutexMark::Mutex => true,
        MutexMark::Nomutex => false,
    }
}

fn is_plain(role: Role) -> bool
    ensures { result ≡ is_plain role }
{
    match role {
        Role::Plain => true,
        Role::Constructor => false,
        Role::Destructor => false,
    }
}

fn sig_name(sig: &Sig) -> Option<&Name>
    ensures { option_map (λ n. n.now) result ≡ sig_name sig.now }
{
    if is_plain(sig.role) && !sig.name.is(b"main") {
        Some(&sig.name)
    } else {
        None
    }
}

fn form_name(form: &MemberForm) -> Option<&Name>
    ensures { option_map (λ n. n.now) result ≡ member_form_name (member_form_at form.now) }
{
    match form {
        MemberForm::Fields { .. } => None,
        MemberForm::Routine { routine } => {
            let name = sig_name(&routine.sig);
            name
        }
        MemberForm::Proto { sig } => {
            let name = sig_name(sig);
            name
        }
    }
}

// The name of a member where it is a mutex member besides the destructor.
fn exclusive_name(member: &Member) -> Option<&Name>
    ensures { option_map (λ n. n.now) result ≡ exclusive_name member.now }
{
    if is_exclusive(member.mark, member.access) {
        let name = form_name(&member.form);
        name
    } else {
        None
    }
}

fn is_listed(names: &[&Name], name: &Name) -> bool
    ensures { result ≡ list_any (λ n. same_name n name.now) (map (λ n. n.now) names.now) }
{
    for listed in names {
        if listed.is(name.bytes()) {
            return true;
        }
    }
    false
}

// A name that stands already does not stand again, and one past the last number is left out.
fn push_name<'a>(names: &mut Vec<&'a Name>, member: &'a Member) -> Result<(), AllocError>
    requires few { length (map (λ n. n.now) names.old.items) ≤ MEMBERS }
    ensures { OnOk result (map (λ n. n.now) names.new.items
        ≡ take MEMBERS (with_name (exclusive_name member.now) (map (λ n. n.now) names.old.items))) }
{
    match exclusive_name(member) {
        Some(name) => {
            if names.len() == MEMBERS as usize {
                return Ok(());
            }
            if is_listed(names, name) {
                return Ok(());
            }
            names.push(name)?;
            Ok(())
        }
        None => Ok(()),
    }
}

// The names of the mutex members of a class besides its destructor, as many as have numbers.
fn names_in<'a>(alloc: Global, class: &'a Class) -> Result<Vec<&'a Name>, AllocError>
    ensures { IfOk result (λ v. map (λ n. n.now) v.items ≡ take MEMBERS (mutex_members class.now)) }
{
    let mut names = Vec::new(alloc);
    if !is_mutex(class.kind) {
        return Ok(names);
    }
    for member in &class.members {
        push_name(&mut names, member)?;
    }
    Ok(names)
}

/// The names of the mutex members of a class besides its destructor, in textual order, as far as they have numbers.
pub fn members_of<'a>(alloc: Global, class: &'a Class) -> Result<Vec<&'a Name>, AllocError>
    ensures names { IfOk result (λ v. map (λ n. n.now) v.items
        ≡ take MEMBERS (mutex_members class.now)) }
    ensures few { IfOk result (λ v. length v.items ≤ MEMBERS) }
{
    let names = names_in(alloc, class)?;
    Ok(names)
}

fn number_in(names: &[&Name], name: &Name) -> Option<u8>
    requires { length names.now ≤ MEMBERS }
    ensures { result ≡ place_from 1 (map (λ n. n.now) names.now) name.now }
{
    let mut number: u8 = 1;
    for listed in names {
        if listed.is(name.bytes()) {
            return Some(number);
        }
        number += 1;
    }
    None
}

/// The number of a member among these names of the members of its class.
pub fn member_number(names: &[&Name], name: &Name) -> Option<u8>
    requires few { length names.now ≤ MEMBERS }
    ensures number { result ≡ place_from 1 (map (λ n. n.now) names.now) name.now }
    ensures of_class { (c : Class) → map (λ n. n.now) names.now ≡ take MEMBERS (mutex_members c) →
        result ≡ member_number c name.now }
{
    let number = number_in(names, name);
    number
}
