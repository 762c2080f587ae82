// Tests of signatures.

ghost use Rattle.std.specs.Prelude.{◌≡◌, ◌&&◌};
ghost use Rattle.uc_rules.specs.ClassBreaks.{is_main_of_class, is_void_base, may_return, sig_may_be_marked};
ghost use Rattle.uc_rules.specs.ItemBreaks.{has_class_name, is_int_base, is_main_base, is_program_main};
ghost use Rattle.uc_rules.specs.ProgramVisits.{same_role};

use uc_rules::rules::Sort;
use uc_tree::class::Sig;
use uc_tree::kinds::{Base, Owner, Role};
use uc_tree::name::Name;
use uc_types::sort::{is_constructor, is_destructor, is_plain, is_scalar_sort, is_void};

/// Whether it is `void`.
pub fn is_void_base(base: &Base) -> bool
    ensures { result ≡ is_void_base base.now }
{
    matches!(base, Base::Void)
}

/// Whether it is `int`.
pub fn is_int_base(base: &Base) -> bool
    ensures { result ≡ is_int_base base.now }
{
    matches!(base, Base::Int)
}

/// Whether two roles are the same.
pub fn same_role(a: Role, b: Role) -> bool
    ensures { result ≡ same_role a b }
{
    match a {
        Role::Plain => is_plain(b),
        Role::Constructor => is_constructor(b),
        Role::Destructor => is_destructor(b),
    }
}

fn is_main_base(owner: &Owner, base: &Base) -> bool
    ensures { result ≡ is_main_base owner.now base.now }
{
    match owner {
        Owner::Here => is_int_base(base),
        Owner::Main => is_void_base(base),
        Owner::Class(_) => false,
    }
}

/// Whether it is the program's main.
pub fn is_program_main(sig: &Sig) -> bool
    ensures { result ≡ is_program_main sig.now }
{
    is_plain(sig.role)
        && (sig.name.is(b"main") && (is_main_base(&sig.owner, &sig.ret) && sig.params.is_empty()))
}

/// Whether it is the main of a class.
pub fn is_main_of_class(sig: &Sig) -> bool
    ensures { result ≡ is_main_of_class sig.now }
{
    is_plain(sig.role)
        && (sig.name.is(b"main") && (is_void_base(&sig.ret) && sig.params.is_empty()))
}

/// Whether a constructor or destructor has the name of its class, and a destructor no parameters.
pub fn has_class_name(class: &Name, sig: &Sig) -> bool
    ensures { result ≡ has_class_name class.now sig.now }
{
    (is_plain(sig.role) || sig.name.is(class.bytes()))
        && (!is_destructor(sig.role) || sig.params.is_empty())
}

/// Whether `_Mutex` or `_Nomutex` may stand before it in a mutex type.
pub fn may_be_marked(sig: &Sig) -> bool
    ensures { result ≡ sig_may_be_marked sig.now }
{
    is_plain(sig.role) && !sig.name.is(b"main")
}

/// Whether a routine may return it.
pub fn may_return(sort: Sort) -> bool
    ensures { result ≡ may_return sort }
{
    is_void(sort) || is_scalar_sort(sort)
}
