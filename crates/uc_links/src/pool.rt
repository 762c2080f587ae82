//! The pool: each object's entries and stack, in nodes that are taken once.
ghost use Rattle.std.specs.Prelude.{◌≡◌, ◌<◌, ◌+◌, length, IfOk, IfErr, IfSome};
ghost use Rattle.uc_links.specs.Lists.{IsFree, IsEntry, lists_at, first_of, first_with, popped, pushed_back, pushed_top, unlinked, empty_pool, with_node, with_object, member_limit, has_none};

use crate::chain::{Node, blank_node, label_of, node_at};
use crate::object::{
    Object, blank_object, claim, enter, first_caller, first_entry, leave, stack_on, top_of,
    unstack, vacate,
};
use crate::raw::block_of;
use crate::rows::Rows;
use crate::steps::Steps;
use std::alloc::{AllocError, Global};
use std::marker::{Model, Send};
use std::sync::ledger::Ledger;

/// A pool of nodes that holds an entry queue and a stack for each object.
///
/// A contract sees the number of nodes and, for each object, the list of its entries, which are pairs of a task and a
/// member with the oldest first, and the list of its stack with the top first. Node `id` stands for task `id` and is in
/// at most one list at a time.
///
/// `with_room`, `new`, `add_node` and `add_object` take all memory; no other call takes any. Each of the others visits a
/// fixed number of nodes, whatever waits (no function that changes links has a loop), and counts one move. The memory is
/// freed when the pool ends.
#[derive(Drop)]
pub struct Links {
    // They never move: there is room for all from the start.
    nodes: Vec<Node, Global>,
    objects: Vec<Object, Global>,
    // There is room for one of each node.
    rows: Rows,
}

impl Model for Links {
    ghost use Rattle.std.specs.Vec.{vec_capacity};
    ghost use Rattle.uc_links.specs.Lists.{Pool};
    ghost use Rattle.uc_links.specs.Rows.{wholes};
    ghost use Rattle.uc_links.specs.View.{pool_of, IsPool};

    ghost Value = { Pool };

    ghost view = { λ l. pool_of l.nodes (wholes l.rows.list.items l.objects.items) };

    ghost invariant = { λ l.
        IsPool l.nodes (vec_capacity l.rows.list) l.objects.items l.rows.list.items l.rows.free };
}

impl Links {
    /// A pool of the nodes 0 to `nodes` - 1, with no objects.
    pub fn new(alloc: Global, nodes: u32) -> Result<Links, AllocError>
        ensures { IfOk result (λ l. l ≡ empty_pool nodes) }
    {
        let mut links = Links::with_room(alloc, nodes)?;
        for _id in 0..nodes {
            links.add_node()?;
        }
        Ok(links)
    }

    /// A pool with no nodes and no objects, to which so many nodes may be added. It takes their memory, and writes to none
    /// of it.
    pub fn with_room(alloc: Global, nodes: u32) -> Result<Links, AllocError>
        ensures { IfOk result (λ l. l ≡ empty_pool 0) }
    {
        let mut list = Vec::with_capacity(alloc, nodes as usize)?;
        block_of(&mut list);
        Ok(Links {
            nodes: list,
            objects: Vec::new(alloc),
            rows: Rows {
                list: Vec::new(alloc),
                free: None,
            },
        })
    }

    /// Adds a node that is in no list, and returns its number: nodes are numbered from 0. Where memory is wanting, or there
    /// are as many nodes as the pool was made for, it is unchanged.
    pub fn add_node(&mut self) -> Result<u32, AllocError>
        ensures number { IfOk result (λ n. n ≡ self.old.count) }
        ensures added { IfOk result (λ _. self.new ≡ with_node self.old) }
        ensures err { IfErr result (λ _. self.new ≡ self.old) }
    {
        let count = self.nodes.len();
        if count >= self.nodes.capacity() || count > u32::MAX as usize {
            return Err(AllocError);
        }
        let more = count + 1 - self.rows.list.len();
        self.rows.list.reserve(more)?;
        let id = count as u32;
        self.nodes.push_reserved(blank_node(id));
        Ok(id)
    }

    /// Adds an object with empty lists, and returns its number: objects are numbered from 0. Where memory is wanting, or no
    /// number is left, the pool is unchanged.
    pub fn add_object(&mut self) -> Result<u32, AllocError>
        ensures number { IfOk result (λ n. n ≡ length self.old.lists) }
        ensures added { IfOk result (λ _. self.new ≡ with_object self.old) }
        ensures err { IfErr result (λ _. self.new ≡ self.old) }
    {
        let count = self.objects.len();
        if count > u32::MAX as usize {
            return Err(AllocError);
        }
        self.objects.push(blank_object())?;
        Ok(count as u32)
    }

    /// Whether an object has no entries and an empty stack, or is not known. It visits no node and counts no move.
    pub fn is_empty(&self, object: u32) -> bool
        ensures { result ≡ has_none (lists_at self.now object) }
    {
        first_entry(&self.objects, object).is_none() && top_of(&self.objects, object).is_none()
    }

    /// Puts task `id`, as a caller of `member`, at the end of an object's entries.
    pub fn push_back<L: Ledger>(&mut self, object: u32, member: u8, id: u32, moves: &mut Steps<L>)
        requires object { object < length self.old.lists }
        requires member { member < member_limit }
        requires node { id < self.old.count }
        requires free { IsFree id self.old }
        ensures lists { self.new ≡ pushed_back self.old object member id }
        ensures moves { moves.new ≡ moves.old + 1 }
    {
        moves.tick();
        let place = node_at(&mut self.nodes, id as usize);
        let entered = &mut self.objects[object as usize];
        let number = claim(entered, &mut self.rows);
        let row = &mut self.rows.list[number as usize];
        enter(&mut self.nodes, entered, row, object, member, place);
    }

    /// The oldest entry of an object: its task and member. `None` where it has no entries.
    pub fn front<L: Ledger>(&mut self, object: u32, moves: &mut Steps<L>) -> Option<(u32, u8)>
        ensures first { result ≡ first_of (lists_at self.old object).entries }
        ensures entry { IfSome result (λ e. IsEntry e.0 (lists_at self.old object).entries) }
        ensures known { IfSome result (λ e. e.0 < self.old.count) }
        ensures same { self.new ≡ self.old }
        ensures moves { moves.new ≡ moves.old + 1 }
    {
        moves.tick();
        match first_entry(&self.objects, object) {
            Some(place) => Some(label_of(&mut self.nodes, place)),
            None => None,
        }
    }

    /// The task of an object's oldest entry with this member. `None` where it has none.
    pub fn front_of<L: Ledger>(
        &mut self,
        object: u32,
        member: u8,
        moves: &mut Steps<L>,
    ) -> Option<u32>
        ensures first { result ≡ first_with member (lists_at self.old object).entries }
        ensures entry { IfSome result (λ id. IsEntry id (lists_at self.old object).entries) }
        ensures known { IfSome result (λ id. id < self.old.count) }
        ensures same { self.new ≡ self.old }
        ensures moves { moves.new ≡ moves.old + 1 }
    {
        moves.tick();
        match first_caller(&self.objects, &self.rows, object, member) {
            Some(place) => {
                let label = label_of(&mut self.nodes, place);
                Some(label.0)
            }
            None => None,
        }
    }

    /// Takes task `id`, wherever it stands, out of an object's entries. The others keep their order. It is then in no list.
    pub fn unlink<L: Ledger>(&mut self, object: u32, id: u32, moves: &mut Steps<L>)
        requires entry { IsEntry id (lists_at self.old object).entries }
        ensures lists { self.new ≡ unlinked self.old object id }
        ensures free { IsFree id self.new }
        ensures moves { moves.new ≡ moves.old + 1 }
    {
        moves.tick();
        let place = node_at(&mut self.nodes, id as usize);
        let label = label_of(&mut self.nodes, place);
        let left = &mut self.objects[object as usize];
        let number = left.row.unwrap();
        let row = &mut self.rows.list[number as usize];
        leave(&mut self.nodes, left, row, label.1, place);
        vacate(left, &mut self.rows, number);
    }

    /// Puts task `id` on top of an object's stack.
    pub fn push_top<L: Ledger>(&mut self, object: u32, id: u32, moves: &mut Steps<L>)
        requires object { object < length self.old.lists }
        requires node { id < self.old.count }
        requires free { IsFree id self.old }
        ensures lists { self.new ≡ pushed_top self.old object id }
        ensures moves { moves.new ≡ moves.old + 1 }
    {
        moves.tick();
        let place = node_at(&mut self.nodes, id as usize);
        let stacked = &mut self.objects[object as usize];
        stack_on(&mut self.nodes, stacked, object, place);
    }

    /// Takes the top off an object's stack, and returns its task, which is then in no list. `None` where the stack is empty.
    pub fn pop_top<L: Ledger>(&mut self, object: u32, moves: &mut Steps<L>) -> Option<u32>
        ensures top { result ≡ first_of (lists_at self.old object).stack }
        ensures lists { self.new ≡ popped self.old object }
        ensures known { IfSome result (λ id. id < self.old.count) }
        ensures free { IfSome result (λ id. IsFree id self.new) }
        ensures moves { moves.new ≡ moves.old + 1 }
    {
        moves.tick();
        match top_of(&self.objects, object) {
            Some(place) => {
                let stacked = &mut self.objects[object as usize];
                unstack(&mut self.nodes, stacked, place);
                let label = label_of(&mut self.nodes, place);
                Some(label.0)
            }
            None => None,
        }
    }
}

fn needs_send<T: Send>(_value: &T) {}

// A pool may be sent to another thread, as the kernel under its lock is: this does not compile otherwise.
fn pools_are_send(links: &Links) {
    needs_send(links);
}
