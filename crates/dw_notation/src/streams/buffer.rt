//! A buffer over a source.
ghost use Rattle.std.specs.Prelude.{◌≡◌, ◌⊎◌, ◌≤◌, [], true, false, length, drop, is_err, IfOk, IsErr};

use super::Source;
use crate::problems::{MAX_READ, ReadFault};

/// The bytes that were read of a source and not yet consumed, 2,048 at most, and whether its end was met.
#[derive(Drop)]
pub struct Buffer {
    bytes: [u8; MAX_READ],
    start: usize,
    end: usize,
    met_end: bool,
    ghost ordered: { start ≤ end },
    ghost in_bytes: { end ≤ 2048 },
}

impl Buffer {
    ghost use Rattle.dw_notation.specs.Buffering.{unread_in, met_end_in, input_of, Passes};

    /// Returns an empty buffer.
    pub fn new() -> Buffer
        ensures unread { unread_in result ≡ [] }
        ensures met_end { met_end_in result ≡ false }
    {
        Buffer {
            bytes: [0; MAX_READ],
            start: 0,
            end: 0,
            met_end: false,
        }
    }

    /// Returns the bytes that were read and not yet consumed.
    pub fn unread(&self) -> &[u8]
        ensures { result.now ≡ unread_in self.now }
    {
        &self.bytes[self.start..self.end]
    }

    /// Reads on if no byte is unread and the end was not met.
    ///
    /// # Errors
    ///
    /// `Failed` if the source fails.
    pub fn fill<S: Source>(&mut self, source: &mut S) -> Result<(), ReadFault>
        ensures passes { Passes S.supply S.is_failed S.pulls_left (input_of source.old self.old)
            (input_of source.new self.new) [] (is_err result) }
        ensures more { IfOk result (λ _. unread_in self.new ≡ [] → met_end_in self.new ≡ true) }
        ensures need { (unread_in self.old ≡ []) ⊎ (input_of source.new self.new ≡ input_of source.old self.old) }
        ensures few { length (unread_in self.new) ≤ MAX_READ }
        ensures fault { IsErr result → (unread_in self.new ≡ []) × (met_end_in self.new ≡ false) }
        ensures again { S.is_failed source.old ≡ true → unread_in self.old ≡ [] → met_end_in self.old ≡ false
            → IsErr result }
    {
        if self.start < self.end || self.met_end {
            return Ok(());
        }
        self.start = 0;
        self.end = 0;
        match source.pull(&mut self.bytes) {
            None => Err(ReadFault::Failed),
            Some(count) => {
                self.end = count;
                self.met_end = count == 0;
                Ok(())
            }
        }
    }

    /// Skips at most `count` of the bytes in the buffer.
    pub fn consume(&mut self, count: usize)
        ensures met_end { met_end_in self.new ≡ met_end_in self.old }
        ensures unread { unread_in self.new ≡ drop count (unread_in self.old) }
    {
        self.start += count.min(self.unread().len());
    }
}
