//! Sources and sinks of bytes.
ghost use Rattle.std.specs.Prelude.{◌≡◌, ℕ, ◌<◌, ◌||◌, List, Bool, true, false, length, is_none, IfSome, IsNone};
ghost use Rattle.dw_notation.specs.Streams.{Supply, PullGives, PullFalls, GiveAdds, GiveFails};

mod buffer;
mod history;
mod reading;
mod writing;

pub use buffer::Buffer;
pub use history::History;
pub use reading::{MAX_READS, Reading};
pub use writing::Writing;

/// A source of bytes.
pub trait Source {
    /// The bytes that its pulls have returned, those still to come if it tells them, and the number of pulls that
    /// have met the end.
    ghost supply: { Self → Supply };

    /// Whether a pull has failed.
    ghost is_failed: { Self → Bool };

    /// A bound on the pulls that can still give bytes.
    ghost pulls_left: { Self → ℕ };

    /// Puts the next bytes at the front of the buffer, which must not be empty, and returns their number: 0 only at the
    /// end. `None` is a failure, and each later pull returns `None` too.
    fn pull(&mut self, buffer: &mut [u8]) -> Option<usize>
        requires { 0 < length buffer.old }
        ensures gives { PullGives (supply self.old) (supply self.new) result buffer.new }
        ensures failed { is_failed self.new ≡ (is_failed self.old || is_none result) }
        ensures again { is_failed self.old ≡ true → IsNone result }
        ensures falls { PullFalls (pulls_left self.old) (pulls_left self.new) result };

    /// Returns whether a pull has failed.
    fn failed(&self) -> bool
        ensures { result ≡ is_failed self.now };
}

/// A sink for bytes.
pub trait Sink {
    /// The bytes that its gives have taken.
    ghost accepted: { Self → List ℕ };

    /// Whether a give has failed.
    ghost is_failed: { Self → Bool };

    /// Takes bytes from the front of the piece, and returns their number. `None` is a failure, and so is 0 for a piece
    /// that is not empty. After a failure each give returns `None`.
    fn give(&mut self, piece: &[u8]) -> Option<usize>
        ensures bytes { GiveAdds (accepted self.old) (accepted self.new) result piece.now }
        ensures failed { GiveFails (is_failed self.old) (is_failed self.new) result piece.now }
        ensures again { is_failed self.old ≡ true → IsNone result };

    /// Returns whether a give has failed.
    fn failed(&self) -> bool
        ensures { result ≡ is_failed self.now };
}

impl<S: Source> Source for &mut S {
    ghost supply = { λ s. S.supply s.now };

    ghost is_failed = { λ s. S.is_failed s.now };

    ghost pulls_left = { λ s. S.pulls_left s.now };

    fn pull(&mut self, buffer: &mut [u8]) -> Option<usize> {
        Source::pull(&mut **self, buffer)
    }

    fn failed(&self) -> bool {
        Source::failed(&**self)
    }
}

impl<K: Sink> Sink for &mut K {
    ghost accepted = { λ k. K.accepted k.now };

    ghost is_failed = { λ k. K.is_failed k.now };

    fn give(&mut self, piece: &[u8]) -> Option<usize> {
        Sink::give(&mut **self, piece)
    }

    fn failed(&self) -> bool {
        Sink::failed(&**self)
    }
}
