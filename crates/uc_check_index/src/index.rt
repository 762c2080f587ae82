// Tables of the items of a program.

ghost use Rattle.std.specs.Prelude.{◌≡◌, ◌&&◌, ◌||◌, IfOk, not, take};
ghost use Rattle.std.specs.List.{list_any};
ghost use Rattle.uc_rules.specs.ClassBreaks.{builds_more};
ghost use Rattle.uc_rules.specs.ItemBreaks.{clashes, class_declares, declares_sig, defines_member, defines_member_sig, defines_name, defines_sig, is_class_of, is_named_proto};
ghost use Rattle.uc_rules.specs.ProgramVisits.{mark_in};
ghost use Rattle.uc_rules.specs.Sorts.{class_at};
ghost use Rattle.uc_check_index.specs.Clashing.{clash_by};
ghost use Rattle.uc_check_index.specs.Firsts.{any_named};
ghost use Rattle.uc_check_index.specs.Indexed.{AreKeyed, AreNamed};
ghost use Rattle.uc_check_index.specs.Topics.{class_name, constant_name, forward_name, proto_name, routine_name};

use crate::firsts::{first_in, is_before};
use crate::keyed::firsts_by_key;
use crate::keys::{kind_key, member_key, member_sig_key, sig_key};
use crate::named::firsts_by_name;
use crate::protos::{Protos, is_declared_in, mark_in, protos_in};
use crate::topics::{KeyTopic, NameTopic};
use std::alloc::{AllocError, Global};
use std::marker::Model;
use uc_names::scope::Scope;
use uc_tree::class::Sig;
use uc_tree::kinds::{Forward, MutexMark};
use uc_tree::made::both;
use uc_tree::name::Name;
use uc_tree::program::{Item, ItemForm, Program};

// The first items of each name, by what they are, and the first constructor with a statement outside of each class.
#[derive(Drop)]
struct Named {
    classes: Scope,
    forwards: Scope,
    routines: Scope,
    protos: Scope,
    constants: Scope,
    builders: Scope,
}

// The first items of each key: classes by kind and name, prototypes and routines by signature, and what is defined outside of
// its class by class, role and name, and by class and signature.
#[derive(Drop)]
struct Keyed {
    kinds: Scope,
    protos: Scope,
    routines: Scope,
    members: Scope,
    member_sigs: Scope,
}

/// The items of a program by name and by signature. Contracts see the program.
#[derive(Drop)]
pub struct Index<'a> {
    program: &'a Program,
    named: Named,
    keyed: Keyed,
    protos: Vec<Protos<'a>>,
}

impl<'a> Model for Index<'a> {
    ghost use Rattle.std.specs.Prelude.{◌≡◌};
    ghost use Rattle.uc_tree.specs.Programs.{Program};
    ghost use Rattle.uc_tree.specs.ProgramCodes.{program_coded};
    ghost use Rattle.uc_tree.specs.Cells.{classes_of};
    ghost use Rattle.uc_check_index.specs.Indexed.{AreKeyed, AreNamed};

    ghost Value = { Program };

    ghost coded = { program_coded };

    ghost view = { λ a. a.program.now };

    ghost invariant = { λ a. AreNamed a.program.now.items a.named.classes a.named.forwards a.named.routines a.named.protos a.named.constants a.named.builders × AreKeyed a.program.now.items a.keyed.kinds a.keyed.protos a.keyed.routines a.keyed.members a.keyed.member_sigs × (a.protos.items ≡ classes_of a.program.now.items) };
}

fn named_in(alloc: Global, items: &[Item]) -> Result<Named, AllocError>
    ensures { IfOk result (λ n. AreNamed items.now n.classes n.forwards n.routines n.protos
        n.constants n.builders) }
{
    let classes = firsts_by_name(alloc, items, NameTopic::Class);
    let forwards = firsts_by_name(alloc, items, NameTopic::Forward);
    let routines = firsts_by_name(alloc, items, NameTopic::Routine);
    let protos = firsts_by_name(alloc, items, NameTopic::Proto);
    let constants = firsts_by_name(alloc, items, NameTopic::Constant);
    let builders = firsts_by_name(alloc, items, NameTopic::Builder);
    let ((classes, forwards), ((routines, protos), (constants, builders))) = both(
        both(classes, forwards),
        both(both(routines, protos), both(constants, builders)),
    )?;
    Ok(Named {
        classes,
        forwards,
        routines,
        protos,
        constants,
        builders,
    })
}

fn keyed_in(alloc: Global, items: &[Item]) -> Result<Keyed, AllocError>
    ensures { IfOk result (λ k. AreKeyed items.now k.kinds k.protos k.routines k.members
        k.member_sigs) }
{
    let kinds = firsts_by_key(alloc, items, KeyTopic::Class);
    let protos = firsts_by_key(alloc, items, KeyTopic::Proto);
    let routines = firsts_by_key(alloc, items, KeyTopic::Routine);
    let members = firsts_by_key(alloc, items, KeyTopic::Member);
    let member_sigs = firsts_by_key(alloc, items, KeyTopic::MemberSig);
    let (kinds, ((protos, routines), (members, member_sigs))) = both(
        kinds,
        both(both(protos, routines), both(members, member_sigs)),
    )?;
    Ok(Keyed {
        kinds,
        protos,
        routines,
        members,
        member_sigs,
    })
}

impl<'a> Index<'a> {
    /// The tables of a program.
    pub fn new(alloc: Global, program: &'a Program) -> Result<Index<'a>, AllocError>
        ensures { IfOk result (λ i. i ≡ program.now) }
    {
        let named = named_in(alloc, &program.items);
        let keyed = keyed_in(alloc, &program.items);
        let protos = protos_in(alloc, &program.items);
        let ((named, keyed), protos) = both(both(named, keyed), protos)?;
        Ok(Index {
            program,
            named,
            keyed,
            protos,
        })
    }

    /// Whether the name has a prototype.
    pub fn has_proto(&self, name: &Name) -> bool
        ensures { result ≡ list_any (is_named_proto name.now) self.now.items }
    {
        let first = first_in(&self.named.protos, name.bytes());
        first.is_some()
    }

    // Whether one of the first items is a class of this name.
    fn has_class(&self, name: &Name, place: usize) -> bool
        ensures { result ≡ any_named class_name name.now (take place self.now.items) }
    {
        let first = first_in(&self.named.classes, name.bytes());
        is_before(first, place)
    }

    fn has_forward(&self, name: &Name, place: usize) -> bool
        ensures { result ≡ any_named forward_name name.now (take place self.now.items) }
    {
        let first = first_in(&self.named.forwards, name.bytes());
        is_before(first, place)
    }

    fn has_routine(&self, name: &Name, place: usize) -> bool
        ensures { result ≡ any_named routine_name name.now (take place self.now.items) }
    {
        let first = first_in(&self.named.routines, name.bytes());
        is_before(first, place)
    }

    fn has_earlier_proto(&self, name: &Name, place: usize) -> bool
        ensures { result ≡ any_named proto_name name.now (take place self.now.items) }
    {
        let first = first_in(&self.named.protos, name.bytes());
        is_before(first, place)
    }

    fn has_constant(&self, name: &Name, place: usize) -> bool
        ensures { result ≡ any_named constant_name name.now (take place self.now.items) }
    {
        let first = first_in(&self.named.constants, name.bytes());
        is_before(first, place)
    }

    fn any_clashes(&self, name: &Name, place: usize) -> bool
        ensures { result ≡ (any_named class_name name.now (take place self.now.items)
            || (any_named forward_name name.now (take place self.now.items)
            || (any_named routine_name name.now (take place self.now.items)
            || (any_named proto_name name.now (take place self.now.items)
            || any_named constant_name name.now (take place self.now.items))))) }
    {
        self.has_class(name, place)
            || (self.has_forward(name, place)
                || (self.has_routine(name, place)
                    || (self.has_earlier_proto(name, place) || self.has_constant(name, place))))
    }

    fn clashes_with_class(&self, name: &Name, place: usize) -> bool
        ensures { result ≡ (any_named class_name name.now (take place self.now.items)
            || (any_named routine_name name.now (take place self.now.items)
            || (any_named proto_name name.now (take place self.now.items)
            || any_named constant_name name.now (take place self.now.items)))) }
    {
        self.has_class(name, place)
            || (self.has_routine(name, place)
                || (self.has_earlier_proto(name, place) || self.has_constant(name, place)))
    }

    fn clashes_with_routine(&self, proto: bool, name: &Name, place: usize) -> bool
        ensures { result ≡ (any_named class_name name.now (take place self.now.items)
            || (any_named forward_name name.now (take place self.now.items)
            || ((not proto && any_named routine_name name.now (take place self.now.items))
            || any_named constant_name name.now (take place self.now.items)))) }
    {
        self.has_class(name, place)
            || (self.has_forward(name, place)
                || ((!proto && self.has_routine(name, place)) || self.has_constant(name, place)))
    }

    fn clashes_with_proto(&self, name: &Name, place: usize) -> bool
        ensures { result ≡ (any_named class_name name.now (take place self.now.items)
            || (any_named forward_name name.now (take place self.now.items)
            || (any_named proto_name name.now (take place self.now.items)
            || any_named constant_name name.now (take place self.now.items)))) }
    {
        self.has_class(name, place)
            || (self.has_forward(name, place)
                || (self.has_earlier_proto(name, place) || self.has_constant(name, place)))
    }

    fn clashes_with_forward(&self, name: &Name, place: usize) -> bool
        ensures { result ≡ (any_named forward_name name.now (take place self.now.items)
            || (any_named routine_name name.now (take place self.now.items)
            || (any_named proto_name name.now (take place self.now.items)
            || any_named constant_name name.now (take place self.now.items)))) }
    {
        self.has_forward(name, place)
            || (self.has_routine(name, place)
                || (self.has_earlier_proto(name, place) || self.has_constant(name, place)))
    }

    fn clashes(&self, proto: bool, name: &Name, later: &Item, place: usize) -> bool
        ensures { result ≡ clash_by proto later.now
            (any_named class_name name.now (take place self.now.items))
            (any_named forward_name name.now (take place self.now.items))
            (any_named routine_name name.now (take place self.now.items))
            (any_named proto_name name.now (take place self.now.items))
            (any_named constant_name name.now (take place self.now.items)) }
    {
        match &later.form {
            ItemForm::Class { .. } => self.clashes_with_class(name, place),
            ItemForm::Routine { .. } => self.clashes_with_routine(proto, name, place),
            ItemForm::Proto { .. } => self.clashes_with_proto(name, place),
            ItemForm::Forward { .. } => self.clashes_with_forward(name, place),
            ItemForm::Constant { .. } | ItemForm::Using { .. } => self.any_clashes(name, place),
        }
    }

    /// Whether one of the first items declares the name too, and is not one with this item; `proto` says whether the name has
    /// a prototype.
    pub fn has_clash(&self, proto: bool, name: &Name, later: &Item, place: usize) -> bool
        ensures { result ≡ list_any (clashes proto name.now later.now) (take place self.now.items) }
    {
        let clash = self.clashes(proto, name, later, place);
        clash
    }

    /// Whether one of the first items is a routine of no class with this name.
    pub fn defines_name(&self, name: &Name, place: usize) -> bool
        ensures { result ≡ list_any (defines_name name.now) (take place self.now.items) }
    {
        let first = first_in(&self.named.routines, name.bytes());
        is_before(first, place)
    }

    /// Whether a constructor of the class stands outside of it and has a statement.
    pub fn builds_more(&self, class: &Name) -> bool
        ensures { result ≡ list_any (builds_more class.now) self.now.items }
    {
        let first = first_in(&self.named.builders, class.bytes());
        first.is_some()
    }

    /// Whether a prototype has this signature.
    pub fn declares_sig(&self, alloc: Global, sig: &Sig) -> Result<bool, AllocError>
        ensures { IfOk result (λ b. b ≡ list_any (declares_sig sig.now) self.now.items) }
    {
        let key = sig_key(alloc, sig)?;
        let first = first_in(&self.keyed.protos, &key);
        Ok(first.is_some())
    }

    /// Whether a routine of no class has this signature.
    pub fn defines_sig(&self, alloc: Global, sig: &Sig) -> Result<bool, AllocError>
        ensures { IfOk result (λ b. b ≡ list_any (defines_sig sig.now) self.now.items) }
    {
        let key = sig_key(alloc, sig)?;
        let first = first_in(&self.keyed.routines, &key);
        Ok(first.is_some())
    }

    /// Whether one of the first items defines a routine of the class that has the role and the name of this one.
    pub fn defines_member(
        &self,
        alloc: Global,
        class: &Name,
        sig: &Sig,
        place: usize,
    ) -> Result<bool, AllocError>
        ensures { IfOk result (λ b. b
            ≡ list_any (defines_member class.now sig.now) (take place self.now.items)) }
    {
        let key = member_key(alloc, class, sig)?;
        let first = first_in(&self.keyed.members, &key);
        Ok(is_before(first, place))
    }

    /// Whether an item defines the routine of the class with this signature.
    pub fn defines_member_sig(
        &self,
        alloc: Global,
        class: &Name,
        sig: &Sig,
    ) -> Result<bool, AllocError>
        ensures { IfOk result (λ b. b
            ≡ list_any (defines_member_sig class.now sig.now) self.now.items) }
    {
        let key = member_sig_key(alloc, class, sig)?;
        let first = first_in(&self.keyed.member_sigs, &key);
        Ok(first.is_some())
    }

    /// Whether the class with this place declares a routine by a prototype with this signature.
    pub fn is_declared_in(&self, alloc: Global, class: usize, sig: &Sig) -> Result<bool, AllocError>
        ensures { IfOk result (λ b. b ≡ class_declares sig.now (class_at self.now class)) }
    {
        let declared = is_declared_in(alloc, &self.protos, class, sig)?;
        Ok(declared)
    }

    /// The mark of the first prototype in the class with this place that has the role and the name of a routine.
    pub fn mark_in(&self, alloc: Global, class: usize, sig: &Sig) -> Result<MutexMark, AllocError>
        ensures { IfOk result (λ mark. mark ≡ mark_in sig.now (class_at self.now class)) }
    {
        let mark = mark_in(alloc, &self.protos, class, sig)?;
        Ok(mark)
    }

    /// Whether there is a class of the name and the kind.
    pub fn has_class_of(&self, alloc: Global, forward: &Forward) -> Result<bool, AllocError>
        ensures { IfOk result (λ b. b ≡ list_any (is_class_of forward.now) self.now.items) }
    {
        let key = kind_key(alloc, forward.kind, &forward.name)?;
        let first = first_in(&self.keyed.kinds, &key);
        Ok(first.is_some())
    }
}
