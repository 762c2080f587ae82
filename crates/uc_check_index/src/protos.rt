// Tables of the prototypes in a class.

ghost use Rattle.std.specs.Prelude.{◌≡◌, ◌∷◌, ◌++◌, List, IfOk, OnOk, option_map, slice_get};
ghost use Rattle.std.specs.List.{list_any};
ghost use Rattle.uc_tree.specs.Cells.{classes_of};
ghost use Rattle.uc_tree.specs.Programs.{Item};
ghost use Rattle.uc_tree.specs.ProgramViews.{member_form_at};
ghost use Rattle.uc_rules.specs.ItemBreaks.{class_declares, form_declares_sig};
ghost use Rattle.uc_rules.specs.ProgramVisits.{mark_among, mark_in};
ghost use Rattle.uc_check_index.specs.Firsts.{AreFirsts};
ghost use Rattle.uc_check_index.specs.Marked.{mark_at};
ghost use Rattle.uc_check_index.specs.Indexed.{AreProtos};
ghost use Rattle.uc_check_index.specs.Topics.{form_role_key, form_sig_key, member_key_of};

use crate::firsts::{first_in, no_firsts, note_key};
use crate::keys::{role_key, sig_key};
use crate::topics::MemberTopic;
use std::alloc::{AllocError, Global};
use std::marker::Model;
use uc_names::scope::Scope;
use uc_tree::class::{Class, Member, MemberForm, Sig};
use uc_tree::kinds::MutexMark;
use uc_tree::made::both;
use uc_tree::program::{Item, ItemForm};

/// A class, with tables of the prototypes among its members. Contracts see the class.
#[derive(Drop)]
pub struct Protos<'a> {
    class: &'a Class,
    roles: Scope,
    sigs: Scope,
}

impl<'a> Model for Protos<'a> {
    ghost use Rattle.uc_tree.specs.Programs.{Class};
    ghost use Rattle.uc_tree.specs.ProgramCodes.{class_coded};
    ghost use Rattle.uc_check_index.specs.Indexed.{AreProtos};

    ghost Value = { Class };

    ghost coded = { class_coded };

    ghost view = { λ a. a.class.now };

    ghost invariant = { λ a. AreProtos a.class.now.members a.roles a.sigs };
}

fn form_role_key(alloc: Global, form: &MemberForm) -> Result<Option<Vec<u8>>, AllocError>
    ensures { IfOk result (λ key. option_map (λ k. k.items) key
        ≡ form_role_key (member_form_at form.now)) }
{
    match form {
        MemberForm::Fields { .. } | MemberForm::Routine { .. } => Ok(None),
        MemberForm::Proto { sig } => {
            let key = role_key(alloc, sig)?;
            Ok(Some(key))
        }
    }
}

fn form_sig_key(alloc: Global, form: &MemberForm) -> Result<Option<Vec<u8>>, AllocError>
    ensures { IfOk result (λ key. option_map (λ k. k.items) key
        ≡ form_sig_key (member_form_at form.now)) }
{
    match form {
        MemberForm::Fields { .. } | MemberForm::Routine { .. } => Ok(None),
        MemberForm::Proto { sig } => {
            let key = sig_key(alloc, sig)?;
            Ok(Some(key))
        }
    }
}

fn key_of(alloc: Global, topic: MemberTopic, member: &Member) -> Result<Option<Vec<u8>>, AllocError>
    ensures { IfOk result (λ key. option_map (λ k. k.items) key ≡ member_key_of topic member.now) }
{
    match topic {
        MemberTopic::Role => form_role_key(alloc, &member.form),
        MemberTopic::Sig => form_sig_key(alloc, &member.form),
    }
}

fn firsts_of(alloc: Global, members: &[Member], topic: MemberTopic) -> Result<Scope, AllocError>
    ensures { IfOk result (λ firsts. AreFirsts (member_key_of topic) members.now firsts) }
{
    let mut firsts = no_firsts(alloc)?;
    for (place, member) in members.iter().enumerate() {
        note_key(&mut firsts, key_of(alloc, topic, member), place)?;
    }
    Ok(firsts)
}

fn mark_at(members: &[Member], place: Option<usize>) -> MutexMark
    ensures { result ≡ mark_at members.now place }
{
    match place {
        Some(place) => match members.get(place) {
            Some(member) => member.mark,
            None => MutexMark::Unmarked,
        },
        None => MutexMark::Unmarked,
    }
}

impl<'a> Protos<'a> {
    /// The tables of a class.
    pub fn new(alloc: Global, class: &'a Class) -> Result<Protos<'a>, AllocError>
        ensures { IfOk result (λ p. p ≡ class.now) }
    {
        let roles = firsts_of(alloc, &class.members, MemberTopic::Role);
        let sigs = firsts_of(alloc, &class.members, MemberTopic::Sig);
        let (roles, sigs) = both(roles, sigs)?;
        Ok(Protos { class, roles, sigs })
    }

    /// Whether one of the members is a prototype with this signature.
    pub fn declares(&self, alloc: Global, sig: &Sig) -> Result<bool, AllocError>
        ensures { IfOk result (λ b. b
            ≡ list_any (λ m. form_declares_sig sig.now m.form) self.now.members) }
    {
        let key = sig_key(alloc, sig)?;
        let first = first_in(&self.sigs, &key);
        Ok(first.is_some())
    }

    /// The mark of the first prototype among the members that has the role and the name of a routine; where there is none,
    /// none.
    pub fn mark_of(&self, alloc: Global, sig: &Sig) -> Result<MutexMark, AllocError>
        ensures { IfOk result (λ mark. mark ≡ mark_among sig.now self.now.members) }
    {
        let class = self.class;
        let key = role_key(alloc, sig)?;
        let first = first_in(&self.roles, &key);
        Ok(mark_at(&class.members, first))
    }
}

// Those of the class that an item is, behind those of the items before.
fn push_protos<'a>(
    protos: &mut Vec<Protos<'a>>,
    alloc: Global,
    item: &'a Item,
) -> Result<(), AllocError>
    ensures { OnOk result ((is : List Item) →
        protos.new.items ++ classes_of is ≡ protos.old.items ++ classes_of (item.now ∷ is)) }
{
    if let ItemForm::Class { class } = &item.form {
        protos.push(Protos::new(alloc, class)?)?;
    }
    Ok(())
}

/// The tables of the classes among these items, events included, in textual order.
pub fn protos_in<'a>(alloc: Global, items: &'a [Item]) -> Result<Vec<Protos<'a>>, AllocError>
    ensures { IfOk result (λ v. v.items ≡ classes_of items.now) }
{
    let mut protos = Vec::new(alloc);
    for item in items {
        push_protos(&mut protos, alloc, item)?;
    }
    Ok(protos)
}

/// Whether the class with this place declares a routine by a prototype with this signature.
pub fn is_declared_in(
    alloc: Global,
    protos: &[Protos],
    class: usize,
    sig: &Sig,
) -> Result<bool, AllocError>
    ensures { IfOk result (λ b. b ≡ class_declares sig.now (slice_get protos.now class)) }
{
    match protos.get(class) {
        Some(class) => class.declares(alloc, sig),
        None => Ok(false),
    }
}

/// The mark of the first prototype in the class with this place that has the role and the name of a routine.
pub fn mark_in(
    alloc: Global,
    protos: &[Protos],
    class: usize,
    sig: &Sig,
) -> Result<MutexMark, AllocError>
    ensures { IfOk result (λ mark. mark ≡ mark_in sig.now (slice_get protos.now class)) }
{
    match protos.get(class) {
        Some(class) => class.mark_of(alloc, sig),
        None => Ok(MutexMark::Unmarked),
    }
}
