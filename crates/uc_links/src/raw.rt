//! The only places where a raw pointer is made or followed. `at` and `block_of` are proved by hand.
ghost use Rattle.std.specs.Prelude.{◌≡◌, ◌*◌, ◌^◌, ◌<◌, slice_index_or, ⊤};
ghost use Rattle.std.specs.Borrow.{sem};
ghost use Rattle.std.specs.Vec.{vec_len, vec_ptr, vec_capacity, vec_follows_item};
ghost use Rattle.std.specs.Mem.{type_size};
ghost use denote.RawPtr.{InBlock};
ghost use Rattle.uc_links.specs.Place.{place_at, index_at, IsPlace};

use std::alloc::{AllocError, Allocator};
use std::marker::Send;
use std::ptr::NonNull;

/// Where an element lies. It owns nothing.
pub struct ElementPtr<T> {
    pub(crate) ptr: *mut T,
}

impl<T> Clone for ElementPtr<T> {
    ghost is_clone = { λ x y. y ≡ x };

    ghost is_infallible = { λ _. ⊤ };

    fn clone(&self) -> Result<ElementPtr<T>, AllocError> {
        Ok(*self)
    }
}

impl<T> Copy for ElementPtr<T> {}

unsafe impl<T> Send for ElementPtr<T> {}

/// It does nothing, and tells what a `Vec` says of its block.
pub(crate) fn block_of<T, B: Allocator>(items: &mut Vec<T, B>)
    ensures unchanged { items.new ≡ items.old }
    ensures block { InBlock (vec_ptr items.old) }
    ensures size { vec_capacity items.old * type_size T.row < 2 ^ 63 }
{}

/// The pointer to the element `index`.
pub(crate) fn place<T, B: Allocator>(items: &mut Vec<T, B>, index: usize) -> ElementPtr<T>
    requires { index < vec_len items.old }
    ensures value { result.ptr ≡ place_at T.row (vec_ptr items.old) index }
    ensures block { InBlock (vec_ptr items.old) }
    ensures unchanged { items.new ≡ items.old }
{
    block_of(items);
    let base = unsafe { NonNull::new_unchecked(items.as_mut_ptr()) };
    ElementPtr {
        ptr: unsafe { base.add(index).as_ptr() },
    }
}

/// The element that the pointer points to.
pub(crate) fn at<T, B: Allocator>(items: &mut Vec<T, B>, place: ElementPtr<T>) -> &mut T
    requires { IsPlace T.row (vec_ptr items.old) (vec_len items.old) place.ptr }
    ensures* writes_back { sem 𝓛 (vec_follows_item T.row B.row B.Allocator items.entry (index_at T.row (vec_ptr items.old) place.ptr) result) }
    ensures value { result.now ≡ slice_index_or items.old.items
        (index_at T.row (vec_ptr items.old) place.ptr) result.now }
{
    unsafe { &mut *place.ptr }
}
