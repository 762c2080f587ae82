// What stands round a routine that is defined outside of its class. One place is asked for, so its class is gone through, and
// no tables of all items are made.

ghost use Rattle.std.specs.Prelude.{◌≡◌};
ghost use Rattle.uc_tree.specs.ProgramViews.{member_form_at};
ghost use Rattle.uc_rules.specs.ProgramVisits.{form_declares, is_of_main, mark_among, mark_in, outer_env, outer_mark};
ghost use Rattle.uc_rules.specs.Sorts.{class_at};

use uc_check_decl::item::owner_home;
use uc_check_decl::sig::same_role;
use uc_classes::class::sig_around;
use uc_rules::rules::{OwnClass, Surroundings};
use uc_tree::class::{Member, MemberForm, Sig};
use uc_tree::kinds::{MutexMark, Owner};
use uc_types::tables::Tables;

// Whether a member is the prototype of a routine, but for its parameters.
fn declares(sig: &Sig, form: &MemberForm) -> bool
    ensures { result ≡ form_declares sig.now (member_form_at form.now) }
{
    match form {
        MemberForm::Proto { sig: proto } => {
            same_role(sig.role, proto.role) && sig.name.is(proto.name.bytes())
        }
        _ => false,
    }
}

fn mark_among(sig: &Sig, members: &[Member]) -> MutexMark
    ensures { result ≡ mark_among sig.now members.now }
{
    for member in members {
        if declares(sig, &member.form) {
            return member.mark;
        }
    }
    MutexMark::Unmarked
}

fn class_mark(tables: &Tables, class: usize, sig: &Sig) -> MutexMark
    ensures { result ≡ mark_in sig.now (class_at tables.now class) }
{
    match tables.class_at(class) {
        Some(class) => mark_among(sig, &class.members),
        None => MutexMark::Unmarked,
    }
}

fn outer_mark(tables: &Tables, home: Option<OwnClass>, sig: &Sig) -> MutexMark
    ensures { result ≡ outer_mark tables.now home sig.now }
{
    match home {
        Some(home) => class_mark(tables, home.class, sig),
        None => MutexMark::Unmarked,
    }
}

fn is_of_main(owner: &Owner) -> bool
    ensures { result ≡ is_of_main owner.now }
{
    matches!(owner, Owner::Main)
}

/// What stands round a routine outside of classes.
pub(crate) fn outer_around(tables: &Tables, sig: &Sig) -> Surroundings
    ensures { result ≡ (outer_env tables.now sig.now).around }
{
    let home = owner_home(tables, &sig.owner);
    let mark = outer_mark(tables, home, sig);
    sig_around(tables, home, is_of_main(&sig.owner), mark, sig)
}
