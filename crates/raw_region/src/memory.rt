//! The block of a region, and the right to give it back. Only this file has raw pointers.
ghost use Rattle.std.specs.Prelude.{◌≡◌, ℕ, ◌+◌, ◌<◌, ◌≤◌, ◌++◌, List, length, take, drop, replicate, IfOk, slice_index, slice_set};
ghost use denote.RawPtr.{Ptr};
ghost use Rattle.raw_region.specs.Ownership.{block_type, room_at, bytes_owned, bytes_lent};

use std::alloc::{AllocError, Allocator};
use std::marker::{Model, PhantomData};

/// A block of bytes that hold nothing yet.
pub(crate) struct Room {
    ptr: *mut u8,
    ghost len: { ℕ },
}

impl Model for Room {
    ghost also_owns = { λ r. room_at r.ptr r.len };
}

/// A block of bytes.
pub(crate) struct Memory {
    ptr: *mut u8,
    ghost bytes: { List ℕ },
}

impl Model for Memory {
    ghost also_owns = { λ m. bytes_owned m.ptr m.bytes };

    ghost also_shares = { λ m _ κ. bytes_lent m.ptr m.bytes κ };
}

/// The right to give the block of `len` bytes at `ptr` back to `alloc`. It takes no space.
pub(crate) struct Lease<A: Allocator> {
    marker: PhantomData<A>,
    ghost alloc: { A },
    ghost ptr: { Ptr },
    ghost len: { ℕ },
}

impl<A: Allocator> Model for Lease<A> {
    ghost also_owns = { λ l. A.dealloc_token l.alloc (block_type l.len) l.ptr };
}

impl Room {
    /// Takes a block of `len` bytes from `alloc`.
    pub(crate) fn reserve<A: Allocator>(
        alloc: &A,
        len: usize,
    ) -> Result<(Room, Lease<A>), AllocError>
        ensures { IfOk result (λ r. (r.0.len ≡ len)
            × (r.1.ptr ≡ r.0.ptr) × (r.1.len ≡ len) × (r.1.alloc ≡ alloc.now)) }
    {
        match alloc.allocate(len, 1) {
            Ok(ptr) => {
                let marker = PhantomData;
                Ok((Room { ptr }, Lease { marker }))
            }
            Err(error) => Err(error),
        }
    }

    /// Fills all `len` bytes of the block with zeros.
    pub(crate) fn zeroed(self, len: usize) -> Memory
        requires { len ≡ self.len }
        ensures { (result.ptr ≡ self.ptr) × (result.bytes ≡ replicate len 0) }
    {
        let Room { ptr } = self;
        let mut at = 0;
        while at < len {
            unsafe { ptr.add(at).write(0) };
            at += 1;
        }
        Memory { ptr }
    }
}

impl Memory {
    /// Gives the block of `len` bytes back.
    pub(crate) fn free<A: Allocator>(self, len: usize, lease: Lease<A>, alloc: &A)
        requires { (len ≡ length self.bytes) × (lease.ptr ≡ self.ptr)
            × (lease.len ≡ len) × (lease.alloc ≡ alloc.now) }
    {
        let Memory { ptr } = self;
        let Lease { marker: _ } = lease;
        unsafe { alloc.deallocate(ptr, len, 1) }
    }

    /// The byte at `at`.
    #[inline]
    pub(crate) fn get(&self, at: usize) -> u8
        requires { at < length self.now.bytes }
        ensures { result ≡ slice_index self.now.bytes at }
    {
        unsafe { *self.ptr.add(at) }
    }

    /// Writes one byte at `at`.
    #[inline]
    pub(crate) fn put(&mut self, at: usize, byte: u8)
        requires { at < length self.old.bytes }
        ensures { (self.new.ptr ≡ self.old.ptr)
            × (self.new.bytes ≡ slice_set self.old.bytes at byte) }
    {
        unsafe { *self.ptr.add(at) = byte };
    }

    /// Copies the `N` bytes from `at` on.
    #[inline]
    pub(crate) fn copy_out<const N: usize>(&self, at: usize, into: &mut [u8; N])
        requires { at + N ≤ length self.now.bytes }
        ensures { into.new ≡ take N (drop at self.now.bytes) }
    {
        unsafe { *into = *(self.ptr.add(at) as *const [u8; N]) };
    }

    /// Writes `N` bytes from `at` on.
    #[inline]
    pub(crate) fn copy_in<const N: usize>(&mut self, at: usize, from: &[u8; N])
        requires { at + N ≤ length self.old.bytes }
        ensures { (self.new.ptr ≡ self.old.ptr) × (self.new.bytes
            ≡ take at self.old.bytes ++ from.now ++ drop (at + N) self.old.bytes) }
    {
        unsafe { *(self.ptr.add(at) as *mut [u8; N]) = *from };
    }
}
