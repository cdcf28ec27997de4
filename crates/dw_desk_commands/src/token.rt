//! The command `token`: a line of play as a token.
ghost use Rattle.std.specs.Prelude.{◌≡◌, ◌⊎◌, ◌≤◌, ◌%◌, ◌++◌, ⊤, [], codes, false, length, IfErr, OnErr, OnOk};
ghost use Rattle.dw_list.specs.Tokens.{token_of};
ghost use Rattle.dw_notation.specs.Streams.{Appends};
ghost use Rattle.dw_notation.specs.Writes.{StopsShort};
ghost use Rattle.dw_desk_commands.specs.declared.desk.DeskFault.TheVariants as because;
ghost use Rattle.dw_desk_commands.specs.Token.{IsTokenFor};
ghost use Rattle.dw_desk_commands.specs.inner.Faults.{FailsForMemory, SinkFails};

use crate::desk::{Desk, DeskFault};
use crate::reporting::Report;
use dw_board::Board;
use dw_commands::Ending;
use dw_games::{Game, LineFault, read_line};
use dw_list::write_token;
use dw_moves::Move;
use dw_notation::{Sink, write_all};
use dw_report::Stop;
use dw_solve::Guide;

/// The line whose token is requested.
#[derive(Clone, Copy)]
pub(crate) struct Line<'a> {
    pub(crate) text: &'a str,
}

impl<B: Board, E> Report<B, Ending<E>> for Line<'_> {
    ghost asks = { λ line. (B.geometry.rows ≡ 10) ⊎ (B.geometry.rows ≡ 8) };

    ghost says = { λ line expanded game. IsTokenFor B.geometry line.text.now game.said.found };

    ghost leaves = { λ line game text. text ≡ [] };

    ghost may_answer = { FailsForMemory };

    ghost counts_on = { ⊤ };

    /// Writes the token of the line in a problem, and returns how that ended. If anything is refused, nothing is
    /// written.
    fn report<G: Guide<B>, K: Sink>(
        &self,
        desk: &mut Desk<B, G>,
        game: &Game<B>,
        sink: &mut K,
    ) -> Result<Ending<E>, DeskFault> {
        let position = match &game.problem.found {
            Ok(position) => position,
            Err(fault) => return Ok(Ending::ProblemRefused(*fault)),
        };
        match read_line(desk.alloc, position, self.text.as_bytes()) {
            Ok(moves) => {
                write_line(moves.as_slice(), sink)?;
                Ok(Ending::Done)
            }
            Err(LineFault::Refused { what, place }) => Ok(Ending::LineRefused {
                number: what.number(),
                name: what.name(),
                place,
            }),
            Err(LineFault::Memory) => Err(DeskFault::Stopped(Stop::Memory)),
        }
    }
}

/// Writes the token of a line, and a line end.
fn write_line<B: Board, K: Sink>(line: &[Move<B>], sink: &mut K) -> Result<(), DeskFault>
    requires odd { length line.now % 2 ≡ 1 }
    requires most { length line.now ≤ 39 }
    requires rows { (B.geometry.rows ≡ 10) ⊎ (B.geometry.rows ≡ 8) }
    requires works { K.is_failed sink.old ≡ false }
    ensures ok { OnOk result (Appends (K.accepted sink.old) (K.accepted sink.new)
        (token_of B.geometry line.now ++ codes "\n")) }
    ensures works { OnOk result (K.is_failed sink.new ≡ false) }
    ensures fails { SinkFails (K.is_failed sink.new) result }
    ensures short { OnErr result (StopsShort (K.accepted sink.old) (K.accepted sink.new)
        (token_of B.geometry line.now ++ codes "\n")) }
    ensures write { IfErr result (λ fault. fault ≡ because.Write) }
{
    write_token(line, sink)?;
    write_all(sink, b"\n")?;
    Ok(())
}
