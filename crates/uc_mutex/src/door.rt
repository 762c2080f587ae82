//! What stands at an object beside its lists.

use uc_links::MEMBERS;

/// Who is inside an object, and which clause of its open accept takes a call of each member, or else 0.
#[derive(Clone, Copy)]
pub struct Doorway {
    pub(crate) inside: Option<u32>,
    pub(crate) opened: Option<[u8; MEMBERS]>,
}

// A site names members of the language; the pool has an order for each of them.
const _: () = prove!(MEMBERS == uc_tree::limits::MEMBERS as usize + 1);
