//! A sink of fixed room.
ghost use Rattle.std.specs.Prelude.{◌≡◌, ◌≤◌, ℕ, [], ◌++◌, IfOk, true, false, take, drop, length, vec_len};
ghost use Rattle.std.specs.Prelude.{vec_capacity};

use dw_notation::Sink;
use std::alloc::{AllocError, Global};
use std::marker::{Brand, PhantomData};

/// The greatest size of a report, for proofs only: it stands for the size of the slice for it.
pub(crate) trait Limit {
    ghost limit: { ℕ };
}

impl Limit for Brand {
    ghost limit = { 0 };
}

/// A sink for a report: bytes up to a limit, allocated at once. It takes the part of a piece that fits, and then it
/// fails.
#[derive(Drop)]
pub(crate) struct Room<L: Limit> {
    pub(crate) bytes: Vec<u8>,
    limit: usize,
    pub(crate) has_failed: bool,
    of: PhantomData<L>,
    ghost is_limit: { limit ≡ L.limit },
    ghost fits: { vec_len bytes ≤ limit },
    ghost has_memory: { limit ≤ vec_capacity bytes },
    ghost full: { has_failed ≡ true → vec_len bytes ≡ limit },
}

impl<L: Limit> Room<L> {
    /// Returns an empty sink with room for `limit` bytes.
    pub(crate) fn new(alloc: Global, limit: usize) -> Result<Room<L>, AllocError>
        requires { limit ≡ L.limit }
        ensures written { IfOk result (λ room. room.bytes.items ≡ []) }
        ensures failed { IfOk result (λ room. room.has_failed ≡ false) }
    {
        Ok(Room {
            bytes: Vec::with_capacity(alloc, limit)?,
            limit,
            has_failed: false,
            of: PhantomData,
        })
    }

    /// Copies the report to the front of a slice, and returns its size in bytes.
    pub(crate) fn copy_to(&self, to: &mut [u8]) -> usize
        requires { length to.old ≡ L.limit }
        ensures count { result ≡ length (self.now.bytes.items) }
        ensures fits { result ≤ length to.old }
        ensures copied { take result to.new ≡ self.now.bytes.items }
        ensures rest { drop result to.new ≡ drop result to.old }
        ensures full { self.now.has_failed ≡ true → result ≡ length to.old }
    {
        let written = self.bytes.as_slice();
        to[..written.len()].copy_from_slice(written);
        written.len()
    }
}

impl<L: Limit> Sink for Room<L> {
    ghost accepted = { λ room. room.bytes.items };

    ghost is_failed = { λ room. room.has_failed };

    fn give(&mut self, piece: &[u8]) -> Option<usize> {
        if self.has_failed {
            return None;
        }
        let left = self.limit - self.bytes.len();
        let count = left.min(piece.len());
        if count == 0 && !piece.is_empty() {
            self.has_failed = true;
            return None;
        }
        match self.bytes.extend_from_slice(&piece[..count]) {
            Ok(()) => Some(count),
            Err(_) => None,
        }
    }

    fn failed(&self) -> bool {
        self.has_failed
    }
}
