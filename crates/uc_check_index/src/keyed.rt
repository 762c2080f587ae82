// Tables of items by keys that are made.

ghost use Rattle.std.specs.Prelude.{◌≡◌, IfOk, None, Some, option_map};
ghost use Rattle.uc_check_index.specs.Firsts.{AreFirsts};
ghost use Rattle.uc_check_index.specs.Keys.{kind_key, sig_key, member_key, member_sig_key};
ghost use Rattle.uc_check_index.specs.Topics.{class_key, key_of, member_of, member_sig_of, outer_key, owned_key, owned_sig_key, proto_key, routine_key};

use crate::firsts::{no_firsts, note_key};
use crate::keys::{kind_key, member_key, member_sig_key, sig_key};
use crate::named::is_here;
use crate::topics::KeyTopic;
use std::alloc::{AllocError, Global};
use uc_names::scope::Scope;
use uc_tree::class::Sig;
use uc_tree::kinds::Owner;
use uc_tree::program::{Item, ItemForm};

fn outer_key(alloc: Global, sig: &Sig) -> Result<Option<Vec<u8>>, AllocError>
    ensures { IfOk result (λ key. option_map (λ k. k.items) key ≡ outer_key sig.now) }
{
    if is_here(&sig.owner) {
        let key = sig_key(alloc, sig)?;
        Ok(Some(key))
    } else {
        Ok(None)
    }
}

fn owned_key(alloc: Global, owner: &Owner, sig: &Sig) -> Result<Option<Vec<u8>>, AllocError>
    ensures { IfOk result (λ key. option_map (λ k. k.items) key ≡ owned_key owner.now sig.now) }
{
    match owner {
        Owner::Here | Owner::Main => Ok(None),
        Owner::Class(name) => {
            let key = member_key(alloc, name, sig)?;
            Ok(Some(key))
        }
    }
}

fn owned_sig_key(alloc: Global, owner: &Owner, sig: &Sig) -> Result<Option<Vec<u8>>, AllocError>
    ensures { IfOk result (λ key. option_map (λ k. k.items) key ≡ owned_sig_key owner.now sig.now) }
{
    match owner {
        Owner::Here | Owner::Main => Ok(None),
        Owner::Class(name) => {
            let key = member_sig_key(alloc, name, sig)?;
            Ok(Some(key))
        }
    }
}

fn class_key(alloc: Global, item: &Item) -> Result<Option<Vec<u8>>, AllocError>
    ensures { IfOk result (λ key. option_map (λ k. k.items) key ≡ class_key item.now) }
{
    match &item.form {
        ItemForm::Class { class } => {
            let key = kind_key(alloc, class.kind, &class.name)?;
            Ok(Some(key))
        },
        ItemForm::Routine { .. }
        | ItemForm::Constant { .. }
        | ItemForm::Proto { .. }
        | ItemForm::Forward { .. }
        | ItemForm::Using { .. } => Ok(None),
    }
}

fn proto_key(alloc: Global, item: &Item) -> Result<Option<Vec<u8>>, AllocError>
    ensures { IfOk result (λ key. option_map (λ k. k.items) key ≡ proto_key item.now) }
{
    match &item.form {
        ItemForm::Proto { sig } => {
            let key = sig_key(alloc, sig)?;
            Ok(Some(key))
        },
        ItemForm::Class { .. }
        | ItemForm::Routine { .. }
        | ItemForm::Constant { .. }
        | ItemForm::Forward { .. }
        | ItemForm::Using { .. } => Ok(None),
    }
}

fn routine_key(alloc: Global, item: &Item) -> Result<Option<Vec<u8>>, AllocError>
    ensures { IfOk result (λ key. option_map (λ k. k.items) key ≡ routine_key item.now) }
{
    match &item.form {
        ItemForm::Routine { routine } => outer_key(alloc, &routine.sig),
        ItemForm::Class { .. }
        | ItemForm::Constant { .. }
        | ItemForm::Proto { .. }
        | ItemForm::Forward { .. }
        | ItemForm::Using { .. } => Ok(None),
    }
}

fn member_of(alloc: Global, item: &Item) -> Result<Option<Vec<u8>>, AllocError>
    ensures { IfOk result (λ key. option_map (λ k. k.items) key ≡ member_of item.now) }
{
    match &item.form {
        ItemForm::Routine { routine } => owned_key(alloc, &routine.sig.owner, &routine.sig),
        ItemForm::Class { .. }
        | ItemForm::Constant { .. }
        | ItemForm::Proto { .. }
        | ItemForm::Forward { .. }
        | ItemForm::Using { .. } => Ok(None),
    }
}

fn member_sig_of(alloc: Global, item: &Item) -> Result<Option<Vec<u8>>, AllocError>
    ensures { IfOk result (λ key. option_map (λ k. k.items) key ≡ member_sig_of item.now) }
{
    match &item.form {
        ItemForm::Routine { routine } => owned_sig_key(alloc, &routine.sig.owner, &routine.sig),
        ItemForm::Class { .. }
        | ItemForm::Constant { .. }
        | ItemForm::Proto { .. }
        | ItemForm::Forward { .. }
        | ItemForm::Using { .. } => Ok(None),
    }
}

fn key_of(alloc: Global, topic: KeyTopic, item: &Item) -> Result<Option<Vec<u8>>, AllocError>
    ensures { IfOk result (λ key. option_map (λ k. k.items) key ≡ key_of topic item.now) }
{
    match topic {
        KeyTopic::Class => class_key(alloc, item),
        KeyTopic::Proto => proto_key(alloc, item),
        KeyTopic::Routine => routine_key(alloc, item),
        KeyTopic::Member => member_of(alloc, item),
        KeyTopic::MemberSig => member_sig_of(alloc, item),
    }
}

/// The first place of each key on a topic.
pub fn firsts_by_key(alloc: Global, items: &[Item], topic: KeyTopic) -> Result<Scope, AllocError>
    ensures { IfOk result (λ firsts. AreFirsts (key_of topic) items.now firsts) }
{
    let mut firsts = no_firsts(alloc)?;
    for (place, item) in items.iter().enumerate() {
        note_key(&mut firsts, key_of(alloc, topic, item), place)?;
    }
    Ok(firsts)
}
