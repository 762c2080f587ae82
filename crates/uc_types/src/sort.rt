// Tests of sorts and of kinds of classes.

ghost use Rattle.std.specs.Prelude.{◌≡◌};
ghost use Rattle.uc_tree.specs.Numbering.{is_event, is_exclusive, is_mutex, is_plain, is_public};
ghost use Rattle.uc_rules.specs.Names.{is_constructor, is_destructor, is_inner_only, is_nomutex};
ghost use Rattle.uc_rules.specs.Sorts.{has_main, is_char, is_cluster, is_condition, is_cormonitor, is_coroutine, is_event_class, is_int, is_mutex_class, is_plain_class, is_plain_kind, is_processor, is_same_class, is_scalar_sort, is_task, is_truth, is_void, of_class, same_sort};

use uc_rules::rules::Sort;
use uc_tree::kinds::{Access, Kind, MutexMark, Role};

/// Whether it is a scalar.
pub fn is_scalar_sort(sort: Sort) -> bool
    ensures { result ≡ is_scalar_sort sort }
{
    matches!(sort, Sort::Int | Sort::Char | Sort::Bool)
}

/// Whether it is none.
pub fn is_void(sort: Sort) -> bool
    ensures { result ≡ is_void sort }
{
    matches!(sort, Sort::Void)
}

/// Whether it is a number.
pub fn is_int(sort: Sort) -> bool
    ensures { result ≡ is_int sort }
{
    matches!(sort, Sort::Int)
}

/// Whether it is a character.
pub fn is_char(sort: Sort) -> bool
    ensures { result ≡ is_char sort }
{
    matches!(sort, Sort::Char)
}

/// Whether it is a truth value.
pub fn is_truth(sort: Sort) -> bool
    ensures { result ≡ is_truth sort }
{
    matches!(sort, Sort::Bool)
}

/// Whether it is a condition.
pub fn is_condition(sort: Sort) -> bool
    ensures { result ≡ is_condition sort }
{
    matches!(sort, Sort::Condition)
}

/// Whether it is a cluster.
pub fn is_cluster(sort: Sort) -> bool
    ensures { result ≡ is_cluster sort }
{
    matches!(sort, Sort::Cluster)
}

/// Whether it is a processor.
pub fn is_processor(sort: Sort) -> bool
    ensures { result ≡ is_processor sort }
{
    matches!(sort, Sort::Processor)
}

/// Whether it is an event.
pub fn is_event_sort(sort: Sort) -> bool
    ensures { result ≡ of_class is_event_class sort }
{
    match sort {
        Sort::Object { kind, .. } => is_event(kind),
        _ => false,
    }
}

/// Whether it is a mutex object.
pub fn is_mutex_sort(sort: Sort) -> bool
    ensures { result ≡ of_class is_mutex_class sort }
{
    match sort {
        Sort::Object { kind, .. } => is_mutex(kind),
        _ => false,
    }
}

/// Whether it is an object and no mutex object.
pub fn is_plain_sort(sort: Sort) -> bool
    ensures { result ≡ of_class is_plain_class sort }
{
    match sort {
        Sort::Object { kind, .. } => is_plain_kind(kind),
        _ => false,
    }
}

fn is_of_class(class: usize, sort: Sort) -> bool
    ensures { result ≡ of_class (is_same_class class) sort }
{
    match sort {
        Sort::Object { class: other, .. } => class == other,
        _ => false,
    }
}

/// Whether two sorts are the same.
pub fn same_sort(a: Sort, b: Sort) -> bool
    ensures { result ≡ same_sort a b }
{
    match a {
        Sort::Void => is_void(b),
        Sort::Int => is_int(b),
        Sort::Char => is_char(b),
        Sort::Bool => is_truth(b),
        Sort::Condition => is_condition(b),
        Sort::Cluster => is_cluster(b),
        Sort::Processor => is_processor(b),
        Sort::Object { class, .. } => is_of_class(class, b),
    }
}

/// Whether it is an event.
pub fn is_event(kind: Kind) -> bool
    ensures { result ≡ is_event kind }
{
    matches!(kind, Kind::Event)
}

/// Whether it is a mutex type.
pub fn is_mutex(kind: Kind) -> bool
    ensures { result ≡ is_mutex kind }
{
    matches!(kind, Kind::Monitor | Kind::Cormonitor | Kind::Task)
}

/// Whether it is a plain coroutine.
pub fn is_coroutine(kind: Kind) -> bool
    ensures { result ≡ is_coroutine kind }
{
    matches!(kind, Kind::Coroutine)
}

/// Whether it is a cormonitor.
pub fn is_cormonitor(kind: Kind) -> bool
    ensures { result ≡ is_cormonitor kind }
{
    matches!(kind, Kind::Cormonitor)
}

/// Whether it is a task.
pub fn is_task(kind: Kind) -> bool
    ensures { result ≡ is_task kind }
{
    matches!(kind, Kind::Task)
}

/// Whether its objects are no mutex objects.
pub fn is_plain_kind(kind: Kind) -> bool
    ensures { result ≡ is_plain_kind kind }
{
    matches!(kind, Kind::Class | Kind::Coroutine)
}

/// Whether it has a main.
pub fn has_main(kind: Kind) -> bool
    ensures { result ≡ has_main kind }
{
    matches!(kind, Kind::Coroutine | Kind::Cormonitor | Kind::Task)
}

/// Whether it is public.
pub fn is_public(access: Access) -> bool
    ensures { result ≡ is_public access }
{
    matches!(access, Access::Public)
}

/// Whether it is neither a constructor nor a destructor.
pub fn is_plain(role: Role) -> bool
    ensures { result ≡ is_plain role }
{
    matches!(role, Role::Plain)
}

/// Whether it is a constructor.
pub fn is_constructor(role: Role) -> bool
    ensures { result ≡ is_constructor role }
{
    matches!(role, Role::Constructor)
}

/// Whether it is a destructor.
pub fn is_destructor(role: Role) -> bool
    ensures { result ≡ is_destructor role }
{
    matches!(role, Role::Destructor)
}

/// Whether it is marked `_Nomutex`.
pub fn is_nomutex(mark: MutexMark) -> bool
    ensures { result ≡ is_nomutex mark }
{
    matches!(mark, MutexMark::Nomutex)
}

/// Whether it is a mutex member, where it may be one.
pub fn is_exclusive(mark: MutexMark, access: Access) -> bool
    ensures { result ≡ is_exclusive mark access }
{
    match mark {
        MutexMark::Unmarked => is_public(access),
        MutexMark::Mutex => true,
        MutexMark::Nomutex => false,
    }
}

/// Whether only inner routines of its class may call it.
pub fn is_inner_only(kind: Kind, mark: MutexMark, access: Access) -> bool
    ensures { result ≡ is_inner_only kind mark access }
{
    is_mutex(kind) && !(is_exclusive(mark, access) || (is_nomutex(mark) && is_public(access)))
}
