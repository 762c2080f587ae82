//! Nodes that are linked by raw pointers, each in two orders at once. No function here has a loop.
ghost use Rattle.std.specs.Prelude.{◌≡◌, ℕ, ◌<◌, List, [], ◌∷◌, ◌++◌, ⊤};
ghost use Rattle.uc_links.specs.Chain.{place_of, node, IsNode, IsNodeIfSome, Relinked, AfterSet, BeforeSet, Labelled, ChangedWithin, SameNodes, index_of, link, IsChain, Avoids};
ghost use Rattle.std.specs.Vec.{vec_len, vec_ptr};
ghost use denote.RawPtr.{InBlock};

use crate::raw::{ElementPtr, at, place};
use std::alloc::{AllocError, Global};
use std::marker::Send;

/// Where a node lies. It owns nothing. It is a type of its own, since a `Node` may not hold an `ElementPtr<Node>`.
pub struct NodePtr {
    pub(crate) ptr: *mut Node,
}

impl Clone for NodePtr {
    ghost is_clone = { λ x y. y ≡ x };

    ghost is_infallible = { λ _. ⊤ };

    fn clone(&self) -> Result<NodePtr, AllocError> {
        Ok(*self)
    }
}

impl Copy for NodePtr {}

unsafe impl Send for NodePtr {}

impl NodePtr {
    fn as_element(self) -> ElementPtr<Node>
        ensures { result.ptr ≡ self.ptr }
    {
        ElementPtr { ptr: self.ptr }
    }
}

/// A node's neighbours in one order.
#[derive(Clone, Copy)]
pub struct Link {
    pub(crate) prev: Option<NodePtr>,
    pub(crate) next: Option<NodePtr>,
}

/// A node stands in no list, in an object's entries, or on an object's stack.
#[derive(Drop)]
pub struct Node {
    pub(crate) id: u32,
    pub(crate) member: u8,
    // The object whose list it stands in, and which list. Only proofs read these two.
    pub(crate) object: u32,
    pub(crate) stacked: bool,
    // In the entries or on the stack, and among the entries of its member.
    pub(crate) links: [Link; 2],
}

/// The ends of one order.
#[derive(Clone, Copy)]
pub struct Ends {
    pub(crate) first: Option<NodePtr>,
    pub(crate) last: Option<NodePtr>,
}

pub(crate) fn blank_node(id: u32) -> Node
    ensures { result.id ≡ id }
{
    let none = Link {
        prev: None,
        next: None,
    };
    Node {
        id,
        member: 0,
        object: 0,
        stacked: false,
        links: [none; 2],
    }
}

/// Where the node `index` lies.
pub(crate) fn node_at(nodes: &mut Vec<Node, Global>, index: usize) -> NodePtr
    requires { index < vec_len nodes.old }
    ensures value { result ≡ place_of nodes.old index }
    ensures unchanged { nodes.new ≡ nodes.old }
{
    let place = place(nodes, index);
    NodePtr { ptr: place.ptr }
}

/// The number and the member of a node.
pub(crate) fn label_of(nodes: &mut Vec<Node, Global>, place: NodePtr) -> (u32, u8)
    requires { IsNode nodes.old place }
    ensures value { let n = node nodes.old (index_of nodes.old place) in
        (result.0 ≡ n.id) × (result.1 ≡ n.member) }
    ensures same { SameNodes nodes.old nodes.new }
{
    let node = at(nodes, place.as_element());
    (node.id, node.member)
}

pub(crate) fn link_of(nodes: &mut Vec<Node, Global>, place: NodePtr, order: usize) -> Link
    requires { (order < 2) × IsNode nodes.old place }
    ensures value { result ≡ link order nodes.old (index_of nodes.old place) }
    ensures same { SameNodes nodes.old nodes.new }
{
    let node = at(nodes, place.as_element());
    node.links[order]
}

/// Writes one link of a node.
pub(crate) fn set_link(nodes: &mut Vec<Node, Global>, place: NodePtr, order: usize, link: Link)
    requires { (order < 2) × IsNode nodes.old place }
    ensures { Relinked order (index_of nodes.old place) link nodes.old nodes.new }
{
    let node = at(nodes, place.as_element());
    node.links[order] = link;
}

/// Writes of which object and member a node is.
pub(crate) fn set_label(
    nodes: &mut Vec<Node, Global>,
    place: NodePtr,
    object: u32,
    stacked: bool,
    member: u8,
)
    requires { IsNode nodes.old place }
    ensures { Labelled (index_of nodes.old place) object stacked member nodes.old nodes.new }
{
    let node = at(nodes, place.as_element());
    node.object = object;
    node.stacked = stacked;
    node.member = member;
}

/// Writes what comes after `prev`, or first where that is `None`.
fn set_after(
    nodes: &mut Vec<Node, Global>,
    ends: &mut Ends,
    prev: Option<NodePtr>,
    order: usize,
    to: Option<NodePtr>,
)
    requires { (order < 2) × IsNodeIfSome nodes.old prev }
    ensures { AfterSet order nodes.old ends.old to prev nodes.new ends.new }
{
    match prev {
        Some(place) => {
            let node = at(nodes, place.as_element());
            node.links[order].next = to;
        }
        None => ends.first = to,
    }
}

/// Writes what comes before `next`, or last where that is `None`.
fn set_before(
    nodes: &mut Vec<Node, Global>,
    ends: &mut Ends,
    next: Option<NodePtr>,
    order: usize,
    to: Option<NodePtr>,
)
    requires { (order < 2) × IsNodeIfSome nodes.old next }
    ensures { BeforeSet order nodes.old ends.old to next nodes.new ends.new }
{
    match next {
        Some(place) => {
            let node = at(nodes, place.as_element());
            node.links[order].prev = to;
        }
        None => ends.last = to,
    }
}

/// Links a node at the end of an order.
pub(crate) fn link_last(
    nodes: &mut Vec<Node, Global>,
    ends: &mut Ends,
    place: NodePtr,
    order: usize,
)
    requires node { InBlock (vec_ptr nodes.old) × (order < 2) × IsNode nodes.old place }
    requires chain { (es : List ℕ) × IsChain order nodes.old ends.old es }
    ensures chain { let i = index_of nodes.old place in
        (es : List ℕ) → IsChain order nodes.old ends.old es → Avoids i es
        → IsChain order nodes.new ends.new (es ++ i ∷ []) }
    ensures rest { let i = index_of nodes.old place in
        (es : List ℕ) → IsChain order nodes.old ends.old es
        → ChangedWithin order (i ∷ es) nodes.old nodes.new }
{
    let last = ends.last;
    set_after(nodes, ends, last, order, Some(place));
    ends.last = Some(place);
    let link = Link {
        prev: last,
        next: None,
    };
    set_link(nodes, place, order, link);
}

/// Takes a node out of an order.
pub(crate) fn unlink(nodes: &mut Vec<Node, Global>, ends: &mut Ends, place: NodePtr, order: usize)
    requires node { InBlock (vec_ptr nodes.old) × (order < 2) × IsNode nodes.old place }
    requires chain { let i = index_of nodes.old place in
        (xs : List ℕ) × (ys : List ℕ) × IsChain order nodes.old ends.old (xs ++ i ∷ ys) }
    ensures chain { let i = index_of nodes.old place in
        (xs ys : List ℕ) → IsChain order nodes.old ends.old (xs ++ i ∷ ys)
        → IsChain order nodes.new ends.new (xs ++ ys) }
    ensures rest { let i = index_of nodes.old place in
        (xs ys : List ℕ) → IsChain order nodes.old ends.old (xs ++ i ∷ ys)
        → ChangedWithin order (xs ++ ys) nodes.old nodes.new }
{
    let link = link_of(nodes, place, order);
    set_after(nodes, ends, link.prev, order, link.next);
    set_before(nodes, ends, link.next, order, link.prev);
}
