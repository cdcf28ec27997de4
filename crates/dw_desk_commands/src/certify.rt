//! The command `certify`: the certificate of an answer.
ghost use Rattle.std.specs.Prelude.{◌≡◌, ◌≤◌, false, IfOk};
ghost use Rattle.dw_desk_commands.specs.Certify.{IsCertificateText, IsCertifyOf};
ghost use Rattle.dw_desk_commands.specs.inner.Faults.{FailsForMemory};
ghost use Rattle.dw_games.specs.Games.{problem_of};

use crate::desk::Desk;
use crate::reporting::{MakesText, refused_output};
use dw_arguments::{CertifyArgs, MemoKind};
use dw_board::{Board, Position};
use dw_certificate::{CertificateFault, certificate_text, certify};
use dw_commands::{Ending, memo_of};
use dw_games::Game;
use dw_report::{RunFault, Stop};
use dw_solve::Guide;
use dw_stipulation::MoveCount;
use std::alloc::Global;

impl<B: Board, E> MakesText<B, Ending<E>> for CertifyArgs {
    ghost says = { λ query expanded game. IsCertifyOf B.geometry query.n.value (problem_of game) };

    ghost is_headed = { λ query. false };

    ghost may_answer = { FailsForMemory };

    ghost counts_on = { ⊥ };

    fn has_heading(&self) -> bool {
        false
    }

    /// Makes the certificate of whether a problem is won within `n` moves, and returns how the program ends. A refused
    /// problem has only its first line.
    fn text_of<G: Guide<B>>(
        &self,
        desk: &mut Desk<B, G>,
        game: &Game<B>,
    ) -> Result<(Vec<u8>, Ending<E>), Stop> {
        let problem = &game.problem;
        let position = match &problem.found {
            Ok(position) => position,
            Err(fault) => {
                let text = refused_output(desk.alloc, false, problem, *fault)?;
                return Ok((text, Ending::Refused));
            }
        };
        desk.begin(problem.number);
        desk.solver.wins(desk.alloc, position, self.n.value)?;
        if desk.solver.dropped() > 0 {
            return Ok((Vec::new(desk.alloc), Ending::TooManyPositions));
        }
        let expanded = desk.solver.expanded();
        match text_of(desk, position, self.n) {
            Ok(text) => Ok((text, Ending::Done)),
            Err(CertificateFault::Missing) => Ok((Vec::new(desk.alloc), Ending::TooManyPositions)),
            Err(CertificateFault::Memory) => {
                let why = Stop::Memory;
                let ending = Ending::Failed(RunFault::Stopped { why, expanded });
                Ok((Vec::new(desk.alloc), ending))
            }
        }
    }
}

/// Makes the text of the certificate of a position out of the memo of the desk. The desk then has a memo that keeps
/// nothing.
fn text_of<B: Board, G: Guide<B>>(
    desk: &mut Desk<B, G>,
    position: &Position<B>,
    n: MoveCount,
) -> Result<Vec<u8>, CertificateFault>
    ensures { IfOk result (λ text. IsCertificateText B.geometry n.value position.now text.items) }
{
    let mut memo = desk
        .solver
        .replace_memo(memo_of(desk.alloc, MemoKind::None, 1)?);
    let certificate = certify(desk.alloc, &mut memo, position, n)?;
    Ok(certificate_text(desk.alloc, position, n.value, &certificate)?)
}
