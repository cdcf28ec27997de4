//! A buffer that keeps the first bytes of a text.
ghost use Rattle.std.specs.Prelude.{◌≡◌, ◌++◌, [], OnOk, List, ℕ};
ghost use Rattle.std.specs.Str.{IsTrimAsciiEnd};
ghost use Rattle.dw_games.specs.inner.Keeping.{IsKept};

use std::alloc::{AllocError, Global};

/// The first bytes of a text, no more than a limit.
#[derive(Drop)]
pub(crate) struct BoundedBuf {
    alloc: Global,
    bytes: Vec<u8>,
    limit: usize,
}

impl BoundedBuf {
    /// Makes an empty buffer that keeps at most `limit` bytes.
    pub(crate) fn new(alloc: Global, limit: usize) -> BoundedBuf
        ensures { IsKept limit [] result }
    {
        BoundedBuf {
            alloc,
            bytes: Vec::new(alloc),
            limit,
        }
    }

    /// Appends a piece to the text, and keeps as much of it as the limit allows.
    pub(crate) fn extend(&mut self, piece: &[u8]) -> Result<(), AllocError>
        ensures { (limit : ℕ) (text : List ℕ) → IsKept limit text self.old
            → OnOk result (IsKept limit (text ++ piece.now) self.new) }
    {
        let room = self.limit.saturating_sub(self.bytes.len());
        let count = piece.len().min(room);
        self.bytes.extend_from_slice(&piece[..count])
    }

    /// Begins again with the empty text.
    pub(crate) fn clear(&mut self)
        ensures { (limit : ℕ) (text : List ℕ) → IsKept limit text self.old → IsKept limit [] self.new }
    {
        self.bytes.clear();
    }

    /// Returns the bytes that were kept.
    pub(crate) fn into_bytes(self) -> Vec<u8>
        ensures { result.items ≡ self.bytes.items }
    {
        let BoundedBuf {
            alloc: _,
            bytes,
            limit: _,
        } = self;
        bytes
    }

    /// Returns the bytes that were kept, without the spaces at their end.
    pub(crate) fn into_trimmed(self) -> Vec<u8>
        ensures { IsTrimAsciiEnd self.bytes.items result.items }
    {
        let mut bytes = self.into_bytes();
        let size = bytes.as_slice().trim_ascii_end().len();
        bytes.truncate(size);
        bytes
    }
}
