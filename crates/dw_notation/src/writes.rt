//! Writing a piece to its end.
ghost use Rattle.std.specs.Prelude.{◌≡◌, true, OnOk, OnErr, IsErr};
ghost use Rattle.dw_notation.specs.Streams.{Appends};
ghost use Rattle.dw_notation.specs.Writes.{StopsShort};

use crate::streams::Sink;
use thiserror::Error;

/// Why a piece was not written to its end.
#[derive(Clone, Copy, Debug, PartialEq, Eq, Error)]
pub enum WriteFault {
    #[error("the sink failed")]
    Failed,
}

/// Gives the whole piece to the sink. At a fault the sink has taken some beginning of the piece, and has failed.
pub fn write_all<K: Sink>(sink: &mut K, piece: &[u8]) -> Result<(), WriteFault>
    ensures ok { OnOk result (Appends (K.accepted sink.old) (K.accepted sink.new) piece.now) }
    ensures err { OnErr result (StopsShort (K.accepted sink.old) (K.accepted sink.new) piece.now) }
    ensures failed { IsErr result → K.is_failed sink.new ≡ true }
    ensures kept { OnOk result (K.is_failed sink.new ≡ K.is_failed sink.old) }
{
    let mut at = 0;
    'pieces: while at < piece.len() {
        match sink.give(&piece[at..]) {
            None => return Err(WriteFault::Failed),
            Some(0) => return Err(WriteFault::Failed),
            Some(count) => at += count,
        }
    }
    Ok(())
}
