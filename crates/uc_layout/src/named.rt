// What names stand for in constant expressions.

ghost use Rattle.std.specs.Prelude.{◌≡◌, ℕ, ℤ, List, Option, map};
ghost use Rattle.std.specs.List.{list_any};
ghost use Rattle.uc_tree.specs.Cells.{declares_name, member_form_named};
ghost use Rattle.uc_tree.specs.ProgramViews.{member_form_at};
ghost use Rattle.uc_layout.specs.Values.{value_at, seen_by};

use uc_tree::class::{Member, MemberForm};
use uc_tree::declare::Declarator;
use uc_tree::name::Name;
use uc_tree::program::Constant;

/// What gives names their values in constant expressions.
pub trait NameValues {
    ghost value_named: { Self → List ℕ → Option ℤ };

    /// The value of a name, none where it has none.
    fn value(&self, name: &Name) -> Option<i64>
        ensures { result ≡ value_named self.now name.now };
}

/// The values of names: of constants, with a value or none for each in the table, but for those that members of a class
/// hide.
#[derive(Clone, Copy)]
pub struct VisibleValues<'a> {
    pub constants: &'a [&'a Constant],
    pub values: &'a [Option<i64>],
    pub hidden: &'a [Member],
}

impl<'a> NameValues for VisibleValues<'a> {
    ghost value_named = { seen_by };

    fn value(&self, name: &Name) -> Option<i64> {
        if is_member(self.hidden, name) {
            return None;
        }
        value_at(self.constants, self.values, name)
    }
}

fn is_declared(declarators: &[Declarator], name: &Name) -> bool
    ensures { result ≡ declares_name name.now declarators.now }
{
    declarators.iter().any(|d| d.name.is(name.bytes()))
}

fn is_form_named(form: &MemberForm, name: &Name) -> bool
    ensures { result ≡ member_form_named name.now (member_form_at form.now) }
{
    match form {
        MemberForm::Fields { declarators, .. } => is_declared(declarators, name),
        MemberForm::Routine { routine } => routine.sig.name.is(name.bytes()),
        MemberForm::Proto { sig } => sig.name.is(name.bytes()),
    }
}

/// Whether one of these members has the name.
pub fn is_member(members: &[Member], name: &Name) -> bool
    ensures { result ≡ list_any (λ m. member_form_named name.now m.form) members.now }
{
    members.iter().any(|m| is_form_named(&m.form, name))
}

fn value_at(constants: &[&Constant], values: &[Option<i64>], name: &Name) -> Option<i64>
    ensures { result ≡ value_at (map (λ c. c.now) constants.now) values.now name.now }
{
    for (place, constant) in constants.iter().enumerate() {
        if constant.name.is(name.bytes()) {
            return match values.get(place) {
                Some(value) => *value,
                None => None,
            };
        }
    }
    None
}
