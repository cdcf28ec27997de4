//! A writer of std as a sink.
ghost use Rattle.std.specs.Prelude.{◌≡◌, false};

use super::{History, Sink};
use std::io;
use std::marker::Model;
use std::snapshot::Snapshot;

/// A writer of std as a sink, with the bytes that it took. It makes no write after one that failed or took nothing.
#[derive(Drop)]
pub struct Writing<W: io::Write> {
    writer: W,
    has_failed: bool,
    /// The writer before the first write.
    first: Snapshot<W>,
    taken: History,
}

impl<W: io::Write> Model for Writing<W> {
    ghost use Rattle.std.specs.Prelude.{◌++◌};
    ghost use Rattle.std.specs.Io.KnownBytes.{Appends as Grows};
    ghost use Rattle.dw_notation.specs.Endpoints.{Written, bytes_told};

    ghost Value = { Written W };

    ghost view = { λ s. record {
      writer = s.writer;
      accepted = bytes_told (W.contents s.first.value) ++ s.taken;
      has_failed = s.has_failed;
    } };

    ghost invariant = { λ s. Grows (W.contents s.first.value) (W.contents s.writer) s.taken };
}

impl<W: io::Write> Writing<W> {
    ghost use Rattle.dw_notation.specs.Endpoints.{Holds, written_to, accepted_by, has_write_failed, bytes_told};

    /// Returns a sink that appends to the writer.
    pub fn new(writer: W) -> Writing<W>
        ensures writer { written_to result ≡ writer }
        ensures accepted { accepted_by result ≡ bytes_told (W.contents writer) }
        ensures sound { has_write_failed result ≡ false }
    {
        Writing {
            first: Snapshot::of(&writer),
            writer,
            has_failed: false,
            taken: History::new(),
        }
    }

    /// States that the writer holds all that was accepted.
    pub fn holds_what_it_accepted(&self)
        ensures { Holds W.contents (written_to self.now) (accepted_by self.now) }
    {
        let _ = &self.taken;
    }

    /// Returns the writer, with everything that was written.
    pub fn into_inner(self) -> W
        ensures writer { result ≡ written_to self }
        ensures holds { Holds W.contents result (accepted_by self) }
    {
        let Writing {
            writer,
            has_failed: _,
            first: _,
            taken: _,
        } = self;
        writer
    }
}

impl<W: io::Write> Sink for Writing<W> {
    ghost use Rattle.std.specs.Prelude.{◌||◌, ◌<◌, length, is_none, IsNone, true};
    ghost use Rattle.dw_notation.specs.Streams.{GiveAdds, GiveFails, GiveReaches};
    ghost use Rattle.dw_notation.specs.Endpoints.{written_to, accepted_by, has_write_failed};

    ghost accepted = { λ s. accepted_by s };

    ghost is_failed = { λ s. has_write_failed s };

    fn give(&mut self, piece: &[u8]) -> Option<usize>
        ensures bytes { GiveAdds (accepted_by self.old) (accepted_by self.new) result piece.now }
        ensures failed { GiveFails (has_write_failed self.old) (has_write_failed self.new) result piece.now }
        ensures again { has_write_failed self.old ≡ true → IsNone result }
        ensures reaches { GiveReaches (W.contents (written_to self.old)) (W.contents (written_to self.new)) result
            piece.now }
    {
        if self.has_failed {
            return None;
        }
        match self.writer.write(piece) {
            Ok(0) if !piece.is_empty() => {
                self.has_failed = true;
                Some(0)
            }
            Ok(count) => {
                self.taken.add(&piece[..count]);
                Some(count)
            }
            Err(_) => {
                self.has_failed = true;
                None
            }
        }
    }

    fn failed(&self) -> bool {
        self.has_failed
    }
}
