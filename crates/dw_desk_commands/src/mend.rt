//! The command `mend`: the sound problems that are one change away from a problem.
ghost use Rattle.std.specs.Prelude.{◌≡◌, ◌==◌, ⊤, if◌then◌else◌, not};
ghost use Rattle.dw_desk_commands.specs.Mend.{IsMendOf, IsMendPart, wording_for};
ghost use Rattle.dw_desk_commands.specs.inner.Faults.{FailsForMemory};
ghost use Rattle.dw_commands.specs.declared.ending.Ending.TheVariants.{Done, Refused};
ghost use Rattle.dw_games.specs.Games.{problem_of};

use crate::desk::{Desk, DeskFault};
use crate::reporting::{Report, refused_output, write_heading};
use dw_arguments::MendArgs;
use dw_board::Board;
use dw_commands::Ending;
use dw_games::Game;
use dw_mend::mend::mend;
use dw_mend::{MendBounds, Mended, Wording};
use dw_notation::{Sink, write_all};
use dw_parts::Part;
use dw_solve::Guide;

impl<B: Board, E> Report<B, Ending<E>> for MendArgs {
    ghost says = { λ query expanded game. IsMendOf B.geometry query expanded (problem_of game) };

    ghost leaves = { λ query game. IsMendPart B.geometry query (problem_of game) };

    ghost may_answer = { FailsForMemory };

    ghost counts_on = { ⊤ };

    /// Writes the sound neighbours of a problem, each as soon as it is found, and returns how that ended. Only the
    /// first line or the row of a refused problem is written.
    fn report<G: Guide<B>, K: Sink>(
        &self,
        desk: &mut Desk<B, G>,
        game: &Game<B>,
        sink: &mut K,
    ) -> Result<Ending<E>, DeskFault> {
        let problem = &game.problem;
        let position = match &problem.found {
            Ok(position) => position,
            Err(fault) => {
                let text = refused_output(desk.alloc, self.json, problem, *fault)?;
                write_all(sink, text.as_slice())?;
                return Ok(Ending::Refused);
            }
        };
        write_heading(!self.json, problem, sink)?;
        let bounds = MendBounds {
            moves: self.n,
            each: self.each,
            part: Part {
                number: self.part,
                parts: self.parts,
            },
            wording: wording_for(self.json),
        };
        desk.begin(problem.number);
        let mended = mend(desk.alloc, &mut desk.solver, position, bounds, sink);
        Ok(ending_with(&mended?))
    }
}

/// Returns the form of the lines.
fn wording_for(json: bool) -> Wording
    ensures { result ≡ wording_for json }
{
    if json { Wording::Row } else { Wording::Words }
}

/// Returns how the command ends: as with a refused problem, if a neighbour stays undecided.
fn ending_with<T>(mended: &Mended) -> Ending<T>
    ensures { result ≡ (if not (mended.now.undecided == 0) then Refused else Done) }
{
    if mended.undecided == 0 {
        Ending::Done
    } else {
        Ending::Refused
    }
}
