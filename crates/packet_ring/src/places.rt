//! A block of memory as a row of places, each empty or holding a value.
ghost use Rattle.std.specs.Prelude.{◌≡◌, ℕ, ◌<◌, List, Option, Some, None, length, replicate, get_or, slice_set, IfOk, ⊤};
ghost use Rattle.std.specs.Vec.Ownership.{FitsInBlock};
ghost use denote.RawPtr.{Ptr};
ghost use Rattle.circular_buffer.specs.Ownership.{cells_own, deed_owns};

use std::alloc::{AllocError, Allocator};
use std::marker::{Model, PhantomData, Send, Sync};
use std::mem::{align_of, size_of};

/// Where a block begins. It owns nothing.
pub(crate) struct Base<T> {
    pub(crate) ptr: *mut T,
}

impl<T> Clone for Base<T> {
    ghost is_clone = { λ x y. y ≡ x };

    ghost is_infallible = { λ _. ⊤ };

    fn clone(&self) -> Result<Base<T>, AllocError> {
        Ok(*self)
    }
}

impl<T> Copy for Base<T> {}

unsafe impl<T> Send for Base<T> {}

unsafe impl<T> Sync for Base<T> {}

/// The owner of a block's places. It has no bytes.
pub(crate) struct Places<T> {
    pub(crate) mark: PhantomData<*const T>,
    pub(crate) ghost at: { Ptr },
    pub(crate) ghost slots: { List (Option T) },
}

impl<T> Model for Places<T> {
    ghost also_owns = { λ c. cells_own T.row c.at c.slots };
}

/// The right to give the block of `len` places at `at` back to `alloc`. It has no bytes.
pub(crate) struct Deed<T, A: Allocator> {
    mark: PhantomData<*const (T, A)>,
    pub(crate) ghost at: { Ptr },
    pub(crate) ghost len: { ℕ },
    pub(crate) ghost alloc: { A },
}

impl<T, A: Allocator> Model for Deed<T, A> {
    ghost also_owns = { λ d. deed_owns T.row (A.dealloc_token d.alloc) d.at d.len };
}

unsafe impl<T, A: Allocator + Send> Send for Deed<T, A> {}

unsafe impl<T, A: Allocator + Send> Sync for Deed<T, A> {}

/// A block of `len` empty places.
pub(crate) fn allocate<T, A: Allocator>(
    alloc: &A,
    len: usize,
) -> Result<(Base<T>, Places<T>, Deed<T, A>), AllocError>
    requires { FitsInBlock T.row len }
    ensures { IfOk result (λ r. (r.1.at ≡ r.0.ptr) × (r.1.slots ≡ replicate len None) × (r.2.at ≡ r.0.ptr) × (r.2.len ≡ len) × (r.2.alloc ≡ alloc.now)) }
{
    match alloc.allocate(len * size_of::<T>(), align_of::<T>()) {
        Ok(block) => {
            let base = Base {
                ptr: block as *mut T,
            };
            Ok((
                base,
                Places { mark: PhantomData },
                Deed { mark: PhantomData },
            ))
        }
        Err(error) => Err(error),
    }
}

/// Gives a block of empty places back.
pub(crate) fn deallocate<T, A: Allocator>(
    alloc: &A,
    base: Base<T>,
    len: usize,
    places: Places<T>,
    deed: Deed<T, A>,
)
    requires { (places.at ≡ base.ptr) × (places.slots ≡ replicate len None) × (deed.at ≡ base.ptr) × (deed.len ≡ len) × (deed.alloc ≡ alloc.now) }
{
    let Places { mark: _ } = places;
    let Deed { mark: _ } = deed;
    unsafe {
        alloc.deallocate(base.ptr as *mut u8, len * size_of::<T>(), align_of::<T>());
    }
}

impl<T> Places<T> {
    /// Puts a value into an empty place.
    pub(crate) fn write(&mut self, base: Base<T>, index: usize, item: T)
        requires { (base.ptr ≡ self.old.at) × (index < length self.old.slots) × (get_or self.old.slots index None ≡ None) }
        ensures { (self.new.at ≡ self.old.at) × (self.new.slots ≡ slice_set self.old.slots index (Some item)) }
    {
        unsafe { base.ptr.add(index).write(item) }
    }
}
