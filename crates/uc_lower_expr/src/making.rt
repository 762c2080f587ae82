// What declarations make.

ghost use Rattle.std.specs.Prelude.{◌≡◌, option_map};
ghost use Rattle.uc_tree.specs.Objects.{making};
ghost use Rattle.uc_lower_expr.specs.Meanings.{making_of, resource_by};

use uc_layout::sizes::Sizes;
use uc_tree::kinds::Base;

/// What a declaration makes besides scalars, references and conditions: an object, plain or of a mutex type, of the class with this
/// place among those of the program, a cluster, or a processor.
#[derive(Clone, Copy)]
pub enum Made {
    Object(usize),
    Cluster,
    Processor,
}

// What a declaration of a base makes that names no class of objects.
fn resource_by(base: &Base) -> Option<Made>
    ensures { result ≡ resource_by base.now }
{
    match base {
        Base::Cluster => Some(Made::Cluster),
        Base::Processor => Some(Made::Processor),
        Base::Void => None,
        Base::Int => None,
        Base::Char => None,
        Base::Bool => None,
        Base::Condition => None,
        Base::Named(_) => None,
    }
}

// What a declaration of a base makes.
pub(crate) fn made_by(sizes: &Sizes, base: &Base) -> Option<Made>
    ensures { making sizes.now base.now ≡ option_map (making_of sizes.now) result }
{
    match sizes.class_made(base) {
        Some(class) => Some(Made::Object(class)),
        None => resource_by(base),
    }
}
