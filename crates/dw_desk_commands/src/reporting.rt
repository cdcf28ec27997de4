//! Reports on games: on each that is chosen, or on the first alone.
ghost use Rattle.std.specs.Prelude.{◌≡◌, ◌≤◌, ◌⊎◌, ◌-◌, ◌++◌, ℕ, Bool, List, Option, false, IfOk, IfErr, OnOk};
ghost use Rattle.std.specs.Prelude.{IsErrOf, OnErr};
ghost use Rattle.dw_notation.specs.Streams.{Appends};
ghost use Rattle.dw_notation.specs.Writes.{StopsShort};
ghost use Rattle.dw_commands.specs.declared.ending.Ending.{Ending};
ghost use Rattle.dw_commands.specs.declared.ending.Ending.TheVariants.{NoProblem};
ghost use Rattle.dw_desk_commands.specs.ProblemText.{IsHeading, IsPartOfFirst, IsPartOfReport, IsReport};
ghost use Rattle.dw_desk_commands.specs.ProblemText.{IsReportOnOne, heading, refused_text};
ghost use Rattle.dw_desk_commands.specs.declared.desk.DeskFault.TheVariants as because;
ghost use Rattle.dw_desk_commands.specs.inner.Choosing.{AreToCome, GoesOn, HaveGames, MayBe, Runs};
ghost use Rattle.dw_desk_commands.specs.inner.Faults.{CommandFails, ReportFails, SinkFails};
ghost use Rattle.dw_desk_commands.specs.inner.NextGame.{IsNext, as_list};
ghost use Rattle.dw_desk_commands.specs.inner.Standing.{MayLeave, Stands, StandsOf};
ghost use Rattle.dw_games.specs.GameReading.{numbered_game};
ghost use Rattle.dw_games.specs.Games.{NumberedGame, problem_of};
ghost use Rattle.dw_notation.specs.Problems.{numbered};
ghost use Rattle.dw_solve.specs.declared.stop.Stop.TheVariants.{Limit};

use crate::chosen::Chosen;
use crate::desk::{Counts, Desk, DeskFault};
use dw_board::Board;
use dw_commands::Ending;
use dw_games::Game;
use dw_notation::{Problem, ProblemFault, Sink, Source, write_all};
use dw_report::{Stop, problem_line, refused_line};
use dw_solve::Guide;
use std::alloc::{AllocError, Global};

/// A command that reports games. `A` is its answer on a game: whether the game counts as refused, or how the program
/// ends.
pub(crate) trait Report<B: Board, A> {
    /// The condition on the command.
    ghost asks: { Self → Type 0 } = { λ command. Unit {0} };

    /// The report on a game after `expanded` positions: the answer, and the text.
    ghost says: { Self → ℕ → NumberedGame → A → List ℕ → Type 0 };

    /// A text that a stop may leave of this report.
    ghost leaves: { Self → NumberedGame → List ℕ → Type 0 };

    /// The answers that are given.
    ghost may_answer: { A → Type 0 };

    /// The condition under which the count of expanded positions does not fall.
    ghost counts_on: { Type 0 };

    /// Reports a game.
    fn report<G: Guide<B>, K: Sink>(
        &self,
        desk: &mut Desk<B, G>,
        game: &Game<B>,
        sink: &mut K,
    ) -> Result<A, DeskFault>
        requires asks { asks self.now }
        requires works { K.is_failed sink.old ≡ false }
        ensures text { IfOk result (λ answer. (text : List ℕ)
            × says self.now (desk.new.solver.expanded - desk.old.solver.expanded) (numbered_game game.now) answer text
            × Appends (K.accepted sink.old) (K.accepted sink.new) text) }
        ensures counts { counts_on → desk.old.solver.expanded ≤ desk.new.solver.expanded }
        ensures works { IfOk result (λ _. K.is_failed sink.new ≡ false) }
        ensures told { IfOk result may_answer }
        ensures fails { ReportFails (K.is_failed sink.new) desk.new.solver.expanded result }
        ensures stands { IfErr result (Stands (MayLeave (leaves self.now (numbered_game game.now)))
            (λ text. (expanded : ℕ) × (answer : A) × says self.now expanded (numbered_game game.now) answer text)
            (K.accepted sink.old) (K.accepted sink.new)) };
}

/// A command that makes a text of each game. Before that it writes the first line of the problem, or nothing.
pub(crate) trait MakesText<B: Board, A> {
    /// The report on a game after `expanded` positions: the answer, and the text.
    ghost says: { Self → ℕ → NumberedGame → A → List ℕ → Type 0 };

    /// Whether the first line of the problem is written before the search.
    ghost is_headed: { Self → Bool };

    /// The answers that are given.
    ghost may_answer: { A → Type 0 };

    /// The condition under which the count of expanded positions does not fall.
    ghost counts_on: { Type 0 };

    /// Returns whether the first line of the problem is written before the search.
    fn has_heading(&self) -> bool
        ensures { result ≡ is_headed self.now };

    /// Makes the text of a game after that line.
    fn text_of<G: Guide<B>>(
        &self,
        desk: &mut Desk<B, G>,
        game: &Game<B>,
    ) -> Result<(Vec<u8>, A), Stop>
        ensures text { IfOk result (λ made.
            says self.now (desk.new.solver.expanded - desk.old.solver.expanded) (numbered_game game.now) made.1
            (heading B.geometry (is_headed self.now) (problem_of (numbered_game game.now)) ++ made.0.items)) }
        ensures counts { counts_on → desk.old.solver.expanded ≤ desk.new.solver.expanded }
        ensures told { IfOk result (λ made. may_answer made.1) }
        ensures stop { IsErrOf result Limit → desk.new.solver.expanded ≡ u64.MAX };
}

/// A command that makes texts, as one that reports.
#[derive(Drop)]
pub(crate) struct InText<'a, C> {
    pub(crate) command: &'a C,
}

impl<B: Board, A: Drop, C: MakesText<B, A>> Report<B, A> for InText<'_, C> {
    ghost says = { λ made. C.says made.command.now };

    ghost leaves = { λ made. IsHeading B.geometry (C.is_headed made.command.now) };

    ghost may_answer = { C.may_answer };

    ghost counts_on = { C.counts_on };

    fn report<G: Guide<B>, K: Sink>(
        &self,
        desk: &mut Desk<B, G>,
        game: &Game<B>,
        sink: &mut K,
    ) -> Result<A, DeskFault> {
        write_heading(self.command.has_heading(), &game.problem, sink)?;
        let (text, answer) = self.command.text_of(desk, game)?;
        desk.solver.make_way();
        write_all(sink, text.as_slice())?;
        Ok(answer)
    }
}

/// Writes the first line of a problem, or nothing.
pub(crate) fn write_heading<B: Board, K: Sink>(
    is_shown: bool,
    problem: &Problem<B>,
    sink: &mut K,
) -> Result<(), DeskFault>
    requires { K.is_failed sink.old ≡ false }
    ensures text { OnOk result (Appends (K.accepted sink.old) (K.accepted sink.new)
        (heading B.geometry is_shown (numbered problem.now))) }
    ensures works { OnOk result (K.is_failed sink.new ≡ false) }
    ensures fails { SinkFails (K.is_failed sink.new) result }
    ensures short { OnErr result (StopsShort (K.accepted sink.old) (K.accepted sink.new)
        (heading B.geometry is_shown (numbered problem.now))) }
    ensures write { IfErr result (λ fault. fault ≡ because.Write) }
{
    if is_shown {
        write_all(sink, problem_line(problem).as_str().as_bytes())?;
    }
    Ok(())
}

/// Appends bytes to a text.
pub(crate) fn push(text: &mut Vec<u8>, bytes: &[u8]) -> Result<(), AllocError>
    ensures { OnOk result (Appends text.old.items text.new.items bytes.now) }
{
    text.extend_from_slice(bytes)
}

/// Reports the chosen games, each as soon as it is read, and counts them.
pub(crate) fn report_all<B: Board, G: Guide<B>, S: Source, K: Sink, R: Report<B, bool>>(
    command: &R,
    desk: &mut Desk<B, G>,
    chosen: &mut Chosen<'_, B, S>,
    sink: &mut K,
) -> Result<Counts, DeskFault>
    requires asks { R.asks command.now }
    requires counts { R.counts_on }
    requires works { K.is_failed sink.old ≡ false }
    requires runs { Runs chosen.old.text }
    requires games { HaveGames B.geometry S.supply chosen.old }
    ensures report { IfOk result (λ counts. (games : List NumberedGame) × (text : List ℕ)
        × ((whole : List ℕ) → MayBe S.supply chosen.new whole
        → AreToCome B.geometry S.supply chosen.old whole games)
        × IsReport (R.says command.now) (desk.new.solver.expanded - desk.old.solver.expanded) games counts text
        × Appends (K.accepted sink.old) (K.accepted sink.new) text) }
    ensures on { GoesOn S.supply chosen.old.text chosen.new.text }
    ensures ends { CommandFails S.is_failed (K.is_failed sink.new) desk.new.solver.expanded chosen.old chosen.new
        result }
    ensures stands { IfErr result (StandsOf (IsPartOfReport (R.says command.now) (R.leaves command.now))
        (λ games text. ⊥) (MayBe S.supply chosen.new) (AreToCome B.geometry S.supply chosen.old)
        (K.accepted sink.old) (K.accepted sink.new)) }
{
    let mut counts = Counts::default();
    'games: while let Some(game) = chosen.next()? {
        counts = counts.with(command.report(desk, &game, sink)?);
    }
    Ok(counts)
}

/// Reports the first of the chosen games, and returns how that ended, or that it is not there. `E` is the type of the
/// texts that an ending names.
pub(crate) fn report_first<E, B: Board, G: Guide<B>, S: Source, K: Sink, R: Report<B, Ending<E>>>(
    command: &R,
    desk: &mut Desk<B, G>,
    chosen: &mut Chosen<'_, B, S>,
    sink: &mut K,
) -> Result<Ending<E>, DeskFault>
    requires asks { R.asks command.now }
    requires works { K.is_failed sink.old ≡ false }
    requires runs { Runs chosen.old.text }
    requires games { HaveGames B.geometry S.supply chosen.old }
    ensures report { IfOk result (λ ending. (next : Option NumberedGame) × (text : List ℕ)
        × IsNext B.geometry S.supply chosen.old chosen.new next
        × IsReportOnOne (R.says command.now (desk.new.solver.expanded - desk.old.solver.expanded))
        chosen.old.portion.first (as_list next) ending text
        × Appends (K.accepted sink.old) (K.accepted sink.new) text) }
    ensures told { IfOk result (λ ending. R.may_answer ending ⊎ (ending ≡ NoProblem chosen.old.portion.first)) }
    ensures on { GoesOn S.supply chosen.old.text chosen.new.text }
    ensures ends { CommandFails S.is_failed (K.is_failed sink.new) desk.new.solver.expanded chosen.old chosen.new
        result }
    ensures stands { IfErr result (StandsOf (IsPartOfFirst (R.leaves command.now))
        (λ games text. (expanded : ℕ) × (ending : Ending E)
        × IsReportOnOne (R.says command.now expanded) chosen.old.portion.first games ending text)
        (MayBe S.supply chosen.new) (AreToCome B.geometry S.supply chosen.old)
        (K.accepted sink.old) (K.accepted sink.new)) }
{
    match chosen.next()? {
        Some(game) => command.report(desk, &game, sink),
        None => Ok(Ending::NoProblem(chosen.first())),
    }
}

/// Makes the output for a problem that is refused: its row, or its first line.
pub(crate) fn refused_output<B: Board>(
    alloc: Global,
    json: bool,
    problem: &Problem<B>,
    fault: ProblemFault,
) -> Result<Vec<u8>, AllocError>
    ensures { IfOk result (λ text. text.items ≡ refused_text B.geometry json (numbered problem.now) fault) }
{
    if json {
        return Ok(refused_line(alloc, problem.number, fault)?.into_bytes());
    }
    let mut text = Vec::new(alloc);
    text.extend_from_slice(problem_line(problem).as_str().as_bytes())?;
    Ok(text)
}
