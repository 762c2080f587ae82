// Fields that lead back to their class.

ghost use Rattle.std.specs.Prelude.{◌≡◌, Some, slice_get};
ghost use Rattle.uc_tree.specs.Rows.{object_leads};
ghost use Rattle.uc_rules.specs.ClassBreaks.{field_object, leads_back};
ghost use Rattle.uc_layout.specs.ContainmentProgress.{flag_at};
ghost use Rattle.uc_classes.specs.Circling.{AreFields, Walks};

use crate::class::{ClassWalk, FieldList};
use uc_layout::circles::flag_at;
use uc_tree::declare::Declarator;
use uc_tree::kinds::Base;
use uc_tree::rows::FieldClass;
use uc_types::tables::Tables;

fn field_object(tables: &Tables, base: &Base, declarator: &Declarator) -> Option<FieldClass>
    ensures { result ≡ field_object tables.now base.now declarator.now }
{
    if declarator.by_ref {
        return None;
    }
    tables.sizes().object(base)
}

fn object_leads(holders: &[bool], to: usize, object: Option<FieldClass>) -> bool
    ensures { result ≡ object_leads (flag_at holders.now) to object }
{
    match object {
        Some(object) => object.class == to || flag_at(holders, object.class),
        None => false,
    }
}

/// Whether a field of a class leads back to it.
pub fn leads_back(
    tables: &Tables,
    walked: ClassWalk,
    listed: FieldList,
    index: usize,
    declarator: &Declarator,
) -> bool
    requires walks { Walks tables.now walked.home walked.class.now walked.circular
        walked.holders.now walked.bound.known walked.bound.names.now }
    requires fields { AreFields walked.class.now listed.member listed.base.now
        listed.declarators.now }
    requires there { slice_get listed.declarators.now index ≡ Some declarator.now }
    ensures { result ≡ leads_back tables.now walked.entry.home.class listed.entry.base.now
        declarator.now }
{
    if !walked.circular {
        return false;
    }
    let object = field_object(tables, listed.base, declarator);
    object_leads(walked.holders, walked.home.class, object)
}
