//! An object's ends in the pool, and the nodes that enter and leave its lists.
ghost use Rattle.std.specs.Prelude.{◌≡◌, ℕ, ◌<◌, List, [], ◌∷◌, ◌++◌, length};
ghost use Rattle.std.specs.Vec.{vec_capacity, vec_ptr};
ghost use denote.RawPtr.{InBlock};
ghost use Rattle.uc_links.specs.Chain.{IsNode, index_of, node, link, Avoids, SameNodes};
ghost use Rattle.uc_links.specs.Held.{IsHeld, Changed, ends_of};
ghost use Rattle.uc_links.specs.Lists.{member_limit};
ghost use Rattle.uc_links.specs.Rows.{bare, bare_at, joined, with_members, whole, MayClaim, Claimed, Vacated};

use crate::chain::{Ends, Link, Node, NodePtr, link_last, link_of, set_label, set_link, unlink};
use crate::rows::{Row, Rows, take};
use std::alloc::Global;

/// The ends of an object's entries, and the top of its stack.
#[derive(Drop)]
pub struct Object {
    pub(crate) entries: Ends,
    // The number of the row with the ends of each member's entries, as long as there are entries.
    pub(crate) row: Option<u32>,
    pub(crate) top: Option<NodePtr>,
}

pub(crate) fn blank_object() -> Object
    ensures { result ≡ bare }
{
    Object {
        entries: Ends {
            first: None,
            last: None,
        },
        row: None,
        top: None,
    }
}

/// The number of an object's row. An object that has none takes one.
pub(crate) fn claim(object: &mut Object, rows: &mut Rows) -> u32
    requires { MayClaim rows.old object.old.row }
    ensures claimed { Claimed object.old.row object.old rows.old object.new rows.new result }
    ensures capacity { vec_capacity rows.new.list ≡ vec_capacity rows.old.list }
{
    match object.row {
        Some(row) => row,
        None => {
            let row = take(rows);
            object.row = Some(row);
            row
        }
    }
}

/// An object without entries gives its row back.
pub(crate) fn vacate(object: &mut Object, rows: &mut Rows, row: u32)
    requires { row < length rows.old.list.items }
    ensures vacated { Vacated object.old.entries.first object.old rows.old row object.new rows.new }
    ensures capacity { vec_capacity rows.new.list ≡ vec_capacity rows.old.list }
{
    match object.entries.first {
        Some(_) => {}
        None => {
            object.row = None;
            rows.list[row as usize].next = rows.free;
            rows.free = Some(row);
        }
    }
}

/// Puts a node at the end of the entries, and at the end of its member's.
pub(crate) fn enter(
    nodes: &mut Vec<Node, Global>,
    object: &mut Object,
    row: &mut Row,
    number: u32,
    member: u8,
    place: NodePtr,
)
    requires node { InBlock (vec_ptr nodes.old) × (member < member_limit) × IsNode nodes.old place }
    requires held { let i = index_of nodes.old place in
        (es : List ℕ) × (st : List ℕ) × IsHeld nodes.old number (joined object.old row.old) es st
        × Avoids i es × Avoids i st }
    ensures held { let i = index_of nodes.old place in
        (es st : List ℕ) → IsHeld nodes.old number (joined object.old row.old) es st
        → Avoids i es → Avoids i st
        → IsHeld nodes.new number (joined object.new row.new) (es ++ i ∷ []) st }
    ensures label { (node nodes.new (index_of nodes.old place)).member ≡ member }
    ensures rest { let i = index_of nodes.old place in
        (es st : List ℕ) → IsHeld nodes.old number (joined object.old row.old) es st
        → Avoids i es → Avoids i st → Changed i (i ∷ es) nodes.old nodes.new }
    ensures row { object.new.row ≡ object.old.row }
{
    set_label(nodes, place, number, false, member);
    link_last(nodes, &mut object.entries, place, 0);
    link_last(nodes, &mut row.members[member as usize], place, 1);
}

/// Takes a node out of the entries, and out of its member's.
pub(crate) fn leave(
    nodes: &mut Vec<Node, Global>,
    object: &mut Object,
    row: &mut Row,
    member: u8,
    place: NodePtr,
)
    requires node { InBlock (vec_ptr nodes.old) × IsNode nodes.old place × (member < member_limit)
        × ((node nodes.old (index_of nodes.old place)).member ≡ member) }
    requires held { let i = index_of nodes.old place in
        (o : ℕ) × (xs : List ℕ) × (ys : List ℕ) × (st : List ℕ)
        × IsHeld nodes.old o (joined object.old row.old) (xs ++ i ∷ ys) st }
    ensures held { let i = index_of nodes.old place in (o : ℕ) (xs ys st : List ℕ) →
        IsHeld nodes.old o (joined object.old row.old) (xs ++ i ∷ ys) st →
        IsHeld nodes.new o (joined object.new row.new) (xs ++ ys) st
        × Changed i (xs ++ ys) nodes.old nodes.new }
    ensures row { object.new.row ≡ object.old.row }
{
    unlink(nodes, &mut object.entries, place, 0);
    unlink(nodes, &mut row.members[member as usize], place, 1);
}

/// Puts a node on top of the stack.
pub(crate) fn stack_on(
    nodes: &mut Vec<Node, Global>,
    object: &mut Object,
    number: u32,
    place: NodePtr,
)
    requires node { InBlock (vec_ptr nodes.old) × IsNode nodes.old place }
    ensures held { let i = index_of nodes.old place in (ms : List Ends) (es st : List ℕ) →
        IsHeld nodes.old number (with_members object.old ms) es st → Avoids i es → Avoids i st →
        IsHeld nodes.new number (with_members object.new ms) es (i ∷ st)
        × Changed i (i ∷ []) nodes.old nodes.new }
    ensures same { (object.new.row ≡ object.old.row) × (object.new.entries ≡ object.old.entries) }
{
    set_label(nodes, place, number, true, 0);
    let link = Link {
        prev: None,
        next: object.top,
    };
    set_link(nodes, place, 0, link);
    object.top = Some(place);
}

/// Takes the node off the top of the stack.
pub(crate) fn unstack(nodes: &mut Vec<Node, Global>, object: &mut Object, place: NodePtr)
    requires { IsNode nodes.old place }
    ensures top { object.new ≡ record object.old {
      top =
          (link 0 nodes.old (index_of nodes.old place)).next;
    } }
    ensures same { SameNodes nodes.old nodes.new }
{
    let link = link_of(nodes, place, 0);
    object.top = link.next;
}

/// Where the oldest entry of an object lies. `None` too where the object is not known.
pub(crate) fn first_entry(objects: &Vec<Object, Global>, object: u32) -> Option<NodePtr>
    ensures { result ≡ (bare_at objects.now.items object).entries.first }
{
    match objects.get(object as usize) {
        Some(known) => known.entries.first,
        None => None,
    }
}

/// Where a member's oldest entry lies. `None` too where the object or the member is not known.
pub(crate) fn first_caller(
    objects: &Vec<Object, Global>,
    rows: &Rows,
    object: u32,
    member: u8,
) -> Option<NodePtr>
    ensures { let known = whole rows.now.list.items (bare_at objects.now.items object) in
        result ≡ (ends_of known member).first }
{
    let row = objects.get(object as usize)?.row?;
    let ends = rows.list.get(row as usize)?.members.get(member as usize)?;
    ends.first
}

/// Where the top of an object's stack lies. `None` too where the object is not known.
pub(crate) fn top_of(objects: &Vec<Object, Global>, object: u32) -> Option<NodePtr>
    ensures { result ≡ (bare_at objects.now.items object).top }
{
    match objects.get(object as usize) {
        Some(known) => known.top,
        None => None,
    }
}
