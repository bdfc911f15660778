//! The one block of memory that the store keeps its bytes in, and every use of its raw pointer.
//!
//! `Base` is the pointer, `Bytes` owns what lies there, and `Deed` is what gives it back. The last
//! two take no space.
ghost use Rattle.std.specs.Prelude.{◌≡◌, ℕ, ◌+◌, ◌^◌, ◌<◌, ◌≤◌, List, [], ◌∷◌, ◌++◌, length, slice_index, slice_set, slice_range, IfOk, ⊤};
ghost use Rattle.std.specs.Borrow.{sem};
ghost use base.Fml.{ftrue};
ghost use denote.RawPtr.{Ptr};
ghost use Rattle.raw_store.specs.Ownership.{block_owns, block_lent, right_owns};

use std::alloc::{AllocError, Allocator, Global};
use std::marker::{Model, PhantomData};
use std::slice;

/// Where the block begins. It owns nothing.
pub struct Base {
    pub(crate) ptr: *mut u8,
}

impl Clone for Base {
    ghost is_clone = { λ x y. y ≡ x };

    ghost is_infallible = { λ _. ⊤ };

    fn clone(&self) -> Result<Base, AllocError> {
        Ok(*self)
    }
}

impl Copy for Base {}

/// The owner of the bytes at `at`: the first are `items`, and `spare` more have room after them.
pub struct Bytes {
    ghost at: { Ptr },
    ghost items: { List ℕ },
    ghost spare: { ℕ },
}

impl Model for Bytes {
    ghost also_owns = { λ c. block_owns c.at c.items c.spare };

    ghost also_shares = { λ c _ κ. block_lent c.at c.items c.spare κ };
}

/// The right to give the block of `len` bytes at `at` back to `alloc`.
pub struct Right<A: Allocator> {
    by: PhantomData<*const A>,
    ghost at: { Ptr },
    ghost len: { ℕ },
    ghost alloc: { A },
}

impl<A: Allocator> Model for Right<A> {
    ghost also_owns = { λ r. right_owns (A.dealloc_token r.alloc) r.at r.len };

    ghost also_shares = { λ _ _ _. ftrue };
}

/// The deed of a block: the right to give it back, and the allocator that it goes back to. Who
/// holds the deed can do nothing but that: no other module can name the allocator, so none can take
/// host memory from it.
pub struct Deed {
    right: Right<Global>,
    alloc: Global,
    pub ghost of_alloc: { right.alloc ≡ alloc },
}

/// A block of `len` bytes, to none of which anything was written.
pub(crate) fn allocate(alloc: Global, len: usize) -> Result<(Base, Bytes, Deed), AllocError>
    requires { len < 2 ^ 63 }
    ensures { IfOk result (λ r. (r.1.at ≡ r.0.ptr) × (r.1.items ≡ []) × (r.1.spare ≡ len) ×
        (r.2.right.at ≡ r.0.ptr)
        × (r.2.right.len ≡ len)) }
{
    let (base, bytes, right) = allocate_block(&alloc, len)?;
    Ok((base, bytes, Deed { right, alloc }))
}

impl Deed {
    /// Gives the block back, with what lies in it and the room after that.
    pub(crate) fn give_back(self, base: Base, len: usize, bytes: Bytes)
        requires { (bytes.at ≡ base.ptr) × (length bytes.items + bytes.spare ≡ len) ×
            (self.right.at ≡ base.ptr)
            × (self.right.len ≡ len) }
    {
        let Deed { right, alloc } = self;
        deallocate_block(&alloc, base, len, bytes, right);
    }
}

fn allocate_block<A: Allocator>(
    alloc: &A,
    len: usize,
) -> Result<(Base, Bytes, Right<A>), AllocError>
    requires { len < 2 ^ 63 }
    ensures { IfOk result (λ r. (r.1.at ≡ r.0.ptr) × (r.1.items ≡ []) × (r.1.spare ≡ len) ×
        (r.2.at ≡ r.0.ptr)
        × (r.2.len ≡ len) × (r.2.alloc ≡ alloc.now)) }
{
    match alloc.allocate(len, 1) {
        Ok(ptr) => Ok((Base { ptr }, Bytes {}, Right { by: PhantomData })),
        Err(error) => Err(error),
    }
}

fn deallocate_block<A: Allocator>(alloc: &A, base: Base, len: usize, bytes: Bytes, right: Right<A>)
    requires { (bytes.at ≡ base.ptr) × (length bytes.items + bytes.spare ≡ len) × (right.at ≡ base.ptr)
        × (right.len ≡ len) × (right.alloc ≡ alloc.now) }
{
    let Bytes {} = bytes;
    let Right { by: _ } = right;
    unsafe { alloc.deallocate(base.ptr, len, 1) }
}

impl Bytes {
    ghost use Rattle.raw_store.specs.Lends.{lends_run};

    /// Writes the first of the bytes that nothing was written to.
    pub(crate) fn push(&mut self, base: Base, at: usize, byte: u8)
        requires { (base.ptr ≡ self.old.at) × (at ≡ length self.old.items) × (0 < self.old.spare) }
        ensures { (self.new.at ≡ self.old.at) × (self.new.items ≡ self.old.items ++ byte ∷ [])
            × (self.new.spare + 1 ≡ self.old.spare) }
    {
        unsafe { base.ptr.add(at).write(byte) }
    }

    /// The byte at a place.
    pub(crate) fn read(&self, base: Base, at: usize) -> u8
        requires { (base.ptr ≡ self.now.at) × (at < length self.now.items) }
        ensures { result ≡ slice_index self.now.items at }
    {
        unsafe { base.ptr.add(at).read() }
    }

    /// Writes the byte at a place.
    pub(crate) fn write(&mut self, base: Base, at: usize, byte: u8)
        requires { (base.ptr ≡ self.old.at) × (at < length self.old.items) }
        ensures { (self.new.at ≡ self.old.at) × (self.new.items ≡ slice_set self.old.items at byte)
            × (self.new.spare ≡ self.old.spare) }
    {
        unsafe { *base.ptr.add(at) = byte }
    }

    /// The `len` bytes from `at` on, for reading.
    pub(crate) fn lend(&self, base: Base, at: usize, len: usize) -> &[u8]
        requires { (base.ptr ≡ self.now.at) × (at + len ≤ length self.now.items) }
        ensures { result.now ≡ slice_range self.now.items at (at + len) }
    {
        unsafe { slice::from_raw_parts(base.ptr.add(at), len) }
    }

    /// The `len` bytes from `at` on, for writing.
    pub(crate) fn lend_mut(&mut self, base: Base, at: usize, len: usize) -> &mut [u8]
        requires { (base.ptr ≡ self.old.at) × (at + len ≤ length self.old.items) }
        ensures* writes_back { sem 𝓛 (lends_run self.entry at len result) }
        ensures value { result.now ≡ slice_range self.old.items at (at + len) }
    {
        unsafe { slice::from_raw_parts_mut(base.ptr.add(at), len) }
    }
}
