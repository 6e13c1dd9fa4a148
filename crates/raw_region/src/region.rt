//! A region of raw memory.
ghost use Rattle.std.specs.Prelude.{◌≡◌, ◌+◌, ◌<◌, ◌≤◌, ◌++◌, length, take, drop, replicate, IfOk, slice_index, slice_set};

use crate::memory::{Lease, Memory, Room};
use aegis_num::OutOfMemory;
use std::alloc::Global;
use std::marker::Model;

/// One raw allocation of a fixed length, seen as a list of bytes. It is freed at drop.
pub struct Region {
    memory: Memory,
    len: usize,
    lease: Lease<Global>,
    alloc: Global,
}

impl Model for Region {
    ghost use Rattle.std.specs.Prelude.{◌≡◌, ℕ, List, length};

    ghost Value = { List ℕ };

    ghost view = { λ a. a.memory.bytes };

    ghost invariant = { λ a. (a.len ≡ length a.memory.bytes) × (a.lease.ptr ≡ a.memory.ptr)
        × (a.lease.len ≡ a.len) × (a.lease.alloc ≡ a.alloc) };
}

impl Region {
    /// A region of `len` bytes, all zero. It answers `OutOfMemory` where the allocator has no such
    /// block, as for each `len` above `isize::MAX`.
    pub fn new(alloc: Global, len: usize) -> Result<Region, OutOfMemory>
        ensures zeros { IfOk result (λ region. region ≡ replicate len 0) }
    {
        let (room, lease) = Room::reserve(&alloc, len)?;
        Ok(Region {
            memory: room.zeroed(len),
            len,
            lease,
            alloc,
        })
    }

    /// How many bytes it has. The number never changes.
    pub fn len(&self) -> usize
        ensures count { result ≡ length self.now }
    {
        self.len
    }

    /// The byte at `at`, counted from 0.
    #[inline]
    pub fn get(&self, at: usize) -> u8
        requires inside { at < length self.now }
        ensures byte { result ≡ slice_index self.now at }
    {
        self.memory.get(at)
    }

    /// Writes one byte at `at`. All other bytes stay.
    #[inline]
    pub fn put(&mut self, at: usize, byte: u8)
        requires inside { at < length self.old }
        ensures bytes { self.new ≡ slice_set self.old at byte }
    {
        self.memory.put(at, byte)
    }

    /// Copies the `N` bytes from `at` on into `into`.
    #[inline]
    pub fn copy_out<const N: usize>(&self, at: usize, into: &mut [u8; N])
        requires inside { at + N ≤ length self.now }
        ensures bytes { into.new ≡ take N (drop at self.now) }
    {
        self.memory.copy_out(at, into)
    }

    /// Writes the `N` bytes of `from` over those from `at` on. All other bytes stay.
    #[inline]
    pub fn copy_in<const N: usize>(&mut self, at: usize, from: &[u8; N])
        requires inside { at + N ≤ length self.old }
        ensures bytes { self.new ≡ take at self.old ++ from.now ++ drop (at + N) self.old }
    {
        self.memory.copy_in(at, from)
    }
}

impl Drop for Region {
    fn drop(self) {
        let Region {
            memory,
            len,
            lease,
            alloc,
        } = self;
        memory.free(len, lease, &alloc);
    }
}
