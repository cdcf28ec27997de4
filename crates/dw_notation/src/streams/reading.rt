//! A reader of std as a source.
ghost use Rattle.std.specs.Prelude.{◌≡◌, ◌≤◌, [], false};

use super::{History, Source};
use std::io;

/// The most reads that one `Reading` makes.
pub const MAX_READS: u64 = 1_000_000_000_000;

/// A reader of std as a source, with the bytes that it returned. It makes at most `MAX_READS` reads, and none after one
/// that failed.
#[derive(Drop)]
pub struct Reading<R> {
    reader: R,
    reads: u64,
    ends: u64,
    has_failed: bool,
    told: History,
    ghost fewer: { ends ≤ reads },
}

impl<R: io::Read> Reading<R> {
    ghost use Rattle.dw_notation.specs.Endpoints.{read_from, told_by, ends_met, has_read_failed, reads_left};

    /// Returns a source of the bytes that the reader has still to give.
    pub fn new(reader: R) -> Reading<R>
        ensures reader { read_from result ≡ reader }
        ensures told { told_by result ≡ [] }
        ensures unended { ends_met result ≡ 0 }
        ensures sound { has_read_failed result ≡ false }
        ensures reads { reads_left result ≡ MAX_READS }
    {
        Reading {
            reader,
            reads: 0,
            ends: 0,
            has_failed: false,
            told: History::new(),
        }
    }
}

impl<R: io::Read> Source for Reading<R> {
    ghost use Rattle.dw_notation.specs.Endpoints.{read_from, told_by, ends_met, has_read_failed, reads_left};

    ghost supply = { λ s. record {
      told = told_by s;
      coming = R.remaining (read_from s);
      ends = ends_met s;
    } };

    ghost is_failed = { λ s. has_read_failed s };

    ghost pulls_left = { λ s. reads_left s };

    fn pull(&mut self, buffer: &mut [u8]) -> Option<usize> {
        if self.has_failed || self.reads >= MAX_READS {
            self.has_failed = true;
            return None;
        }
        self.reads += 1;
        match self.reader.read(buffer) {
            Ok(count) => {
                self.ends += u64::from(count == 0);
                self.told.add(&buffer[..count]);
                Some(count)
            }
            Err(_) => {
                self.has_failed = true;
                None
            }
        }
    }

    fn failed(&self) -> bool {
        self.has_failed
    }
}
