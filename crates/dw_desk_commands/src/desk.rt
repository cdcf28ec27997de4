//! The solver and the counters that all commands share.
ghost use Rattle.std.specs.Prelude.{◌≡◌, ◌⊎◌, ◌+◌, ◌-◌, ◌<◌, ◌≤◌, false, if◌then◌else◌, Bool, ℕ, List, IfOk, IfErr};
ghost use Rattle.dw_desk_commands.specs.Commands.{Leaves, Obeys, RunsCommand, Tells, form_for};
ghost use Rattle.dw_desk_commands.specs.Ending.{FailsForCause, ending_after};
ghost use Rattle.dw_desk_commands.specs.declared.desk.DeskFault.TheVariants as because;
ghost use Rattle.dw_desk_commands.specs.inner.Choosing.{AreToCome, GoesOn, IsFresh, MayBe, lender, source_of};
ghost use Rattle.dw_desk_commands.specs.inner.Standing.{StandsOf};
ghost use Rattle.dw_commands.specs.declared.ending.Ending.{Ending};
ghost use Rattle.std.specs.Borrow.{Bor};
ghost use Rattle.dw_desk_commands.specs.inner.Faults.{CommandFails, FailsForMemory, of_game, of_mend, run_fault};
ghost use Rattle.dw_solve.specs.declared.stop.Stop.TheVariants as stops;

use crate::chosen::Chosen;
use crate::page::page_problems;
use crate::reporting::{InText, report_all, report_first};
use crate::same::same_problems;
use crate::token::Line;
use dw_arguments::{DeskArgs, Task};
use dw_board::Board;
use dw_commands::{Ending, LeakedMemo, memo_of};
use dw_games::GameFault;
use dw_mend::MendFault;
use dw_notation::{Form, ReadFault, Sink, Source, WriteFault};
use dw_report::{RunFault, Stop};
use dw_solve::{Guide, Solver};
use std::alloc::{AllocError, Global};

/// The number of reported problems, and the number of those that count as refused: they or their solutions were
/// refused, they stayed undecided, or their solutions do not hold.
#[derive(Clone, Copy, Default)]
pub struct Counts {
    pub shown: u32,
    pub refused: u32,
}

impl Counts {
    /// Returns how the program ends after these.
    pub(crate) fn ending<T>(self, args: &DeskArgs<'_>) -> Ending<T>
        ensures { result ≡ ending_after self.shown self.refused args.now.portion }
    {
        if self.shown == 0 && args.portion.must_exist {
            Ending::NoProblem(args.portion.first)
        } else if self.refused == 0 {
            Ending::Done
        } else {
            Ending::Refused
        }
    }

    /// Counts one problem more.
    pub(crate) fn with(self, is_refused: bool) -> Counts
        ensures more { self.shown < 4294967295 → self.refused < 4294967295 → result ≡ record {
          shown = self.shown + 1;
          refused = self.refused + (if is_refused then 1 else 0);
        } }
        ensures some { 1 ≤ result.shown }
    {
        Counts {
            shown: self.shown.saturating_add(1),
            refused: self.refused.saturating_add(u32::from(is_refused)),
        }
    }
}

/// The reason why a problem was not reported to its end.
#[derive(Clone, Copy)]
pub(crate) enum DeskFault {
    Stopped(Stop),
    Read,
    Write,
}

impl DeskFault {
    /// Returns the fault as that of a run, after `expanded` positions.
    fn in_run(self, expanded: u64) -> RunFault
        ensures { result ≡ run_fault self expanded }
    {
        match self {
            DeskFault::Stopped(why) => RunFault::Stopped { why, expanded },
            DeskFault::Read => RunFault::Read,
            DeskFault::Write => RunFault::Write,
        }
    }
}

impl From<AllocError> for DeskFault {
    ghost from_gives = { λ _ fault. fault ≡ because.Stopped stops.Memory };

    fn from(_refused: AllocError) -> DeskFault {
        DeskFault::Stopped(Stop::Memory)
    }
}

impl From<Stop> for DeskFault {
    ghost from_gives = { λ stop fault. fault ≡ because.Stopped stop };

    fn from(stop: Stop) -> DeskFault {
        DeskFault::Stopped(stop)
    }
}

impl From<ReadFault> for DeskFault {
    ghost from_gives = { λ _ fault. fault ≡ because.Read };

    fn from(_failed: ReadFault) -> DeskFault {
        DeskFault::Read
    }
}

impl From<GameFault> for DeskFault {
    ghost from_gives = { λ why fault. fault ≡ of_game why };

    fn from(fault: GameFault) -> DeskFault {
        match fault {
            GameFault::Failed => DeskFault::Read,
            GameFault::Memory => DeskFault::Stopped(Stop::Memory),
        }
    }
}

impl From<MendFault> for DeskFault {
    ghost from_gives = { λ why fault. fault ≡ of_mend why };

    fn from(fault: MendFault) -> DeskFault {
        match fault {
            MendFault::Stopped(stop) => DeskFault::Stopped(stop),
            MendFault::Write => DeskFault::Write,
        }
    }
}

impl From<WriteFault> for DeskFault {
    ghost from_gives = { λ _ fault. fault ≡ because.Write };

    fn from(_failed: WriteFault) -> DeskFault {
        DeskFault::Write
    }
}

/// The solver for all problems, which has no limit.
#[derive(Drop)]
pub(crate) struct Desk<B: Board, G: Guide<B>> {
    pub(crate) alloc: Global,
    pub(crate) solver: Solver<B, LeakedMemo<B>, G>,
    ghost unbounded: { solver.limit ≡ 18446744073709551615 },
}

impl<B: Board, G: Guide<B>> Desk<B, G> {
    /// Makes a desk over an empty memo.
    fn new(alloc: Global, args: &DeskArgs<'_>, guide: G) -> Result<Self, AllocError>
    where
        G: Drop,
    {
        let memo = memo_of(alloc, args.memo, args.cache)?;
        let solver = Solver::new(memo, guide, u64::MAX);
        Ok(Desk { alloc, solver })
    }

    /// Begins another problem: the memo may forget those before, and the watcher learns the new number.
    pub(crate) fn begin(&mut self, number: u32)
        ensures { self.new.solver.expanded ≡ self.old.solver.expanded }
    {
        self.solver.forget();
        self.solver.tell_problem(number);
    }
}

/// Runs a command on the problems of a source, and returns how the program ends. The guide orders the moves of the
/// searches, and learns how far they are. The board must have 10 or 8 rows, and neither the source nor the sink may
/// have failed before. It fails if memory is refused, if a stream fails, or if 2^64 - 1 positions are expanded. Then a
/// beginning of the output was written: whole texts of the problems before, and of the next one's text nothing, or
/// whole lines. After a failed write it may end at any byte.
pub fn run_on<'a, B: Board, G: Guide<B> + Drop, S: Source, K: Sink>(
    alloc: Global,
    guide: G,
    args: &DeskArgs<'a>,
    source: &mut S,
    sink: &mut K,
) -> Ending<&'a str>
    requires rows { (B.geometry.rows ≡ 10) ⊎ (B.geometry.rows ≡ 8) }
    requires source { S.is_failed source.old ≡ false }
    requires sink { K.is_failed sink.old ≡ false }
    ensures obeys { Obeys B.geometry args.now (S.supply source.old) (S.supply source.new) (K.accepted sink.old)
        (K.accepted sink.new) result }
    ensures fails { FailsForCause (S.is_failed source.new) (K.is_failed sink.new) result }
{
    let mut chosen = Chosen::<B, S>::new(alloc, source, form_of(args), args.portion);
    let ending = run_chosen(alloc, guide, args, &mut chosen, sink);
    // Chosen problems that are dropped would not tell how much was read.
    let _ = chosen.into_source();
    ending
}

/// Runs a command on the chosen problems.
fn run_chosen<'a, B: Board, G: Guide<B> + Drop, S: Source, K: Sink>(
    alloc: Global,
    guide: G,
    args: &DeskArgs<'a>,
    chosen: &mut Chosen<'_, B, S>,
    sink: &mut K,
) -> Ending<&'a str>
    requires rows { (B.geometry.rows ≡ 10) ⊎ (B.geometry.rows ≡ 8) }
    requires fresh { IsFresh B.geometry S.supply (form_for args.now.task args.now.form) args.now.portion
        chosen.old }
    requires sink { K.is_failed sink.old ≡ false }
    ensures obeys { Obeys B.geometry args.now (S.supply (source_of chosen.old.text))
        (S.supply (source_of chosen.new.text)) (K.accepted sink.old) (K.accepted sink.new) result }
    ensures fails { FailsForCause (S.is_failed (source_of chosen.new.text)) (K.is_failed sink.new) result }
    ensures source { lender chosen.new.text ≡ lender chosen.old.text }
{
    let Ok(mut desk) = Desk::<B, G>::new(alloc, args, guide) else {
        return Ending::no_memory();
    };
    let done = dispatch(&mut desk, args, chosen, sink);
    desk.solver.make_way();
    match done {
        Ok(ending) => ending,
        Err(fault) => Ending::Failed(fault.in_run(desk.solver.expanded())),
    }
}

/// Runs a command on the chosen problems, unless something stops it.
fn dispatch<'a, B: Board, G: Guide<B>, S: Source, K: Sink>(
    desk: &mut Desk<B, G>,
    args: &DeskArgs<'a>,
    chosen: &mut Chosen<'_, B, S>,
    sink: &mut K,
) -> Result<Ending<&'a str>, DeskFault>
    requires rows { (B.geometry.rows ≡ 10) ⊎ (B.geometry.rows ≡ 8) }
    requires fresh { IsFresh B.geometry S.supply (form_for args.now.task args.now.form) args.now.portion
        chosen.old }
    requires sink { K.is_failed sink.old ≡ false }
    ensures does { IfOk result (RunsCommand B.geometry args.now (desk.new.solver.expanded - desk.old.solver.expanded)
        (S.supply (source_of chosen.old.text)) (S.supply (source_of chosen.new.text)) (K.accepted sink.old)
        (K.accepted sink.new)) }
    ensures told { IfOk result FailsForMemory }
    ensures ends { CommandFails S.is_failed (K.is_failed sink.new) desk.new.solver.expanded chosen.old chosen.new
        result }
    ensures on { GoesOn S.supply chosen.old.text chosen.new.text }
    ensures stands { IfErr result (StandsOf (Leaves B.geometry args.now.task) (λ games text. (ending : Ending (Bor
        (List ℕ)))
        × (expanded : ℕ) × Tells B.geometry args.now.portion args.now.task expanded games ending text)
        (MayBe S.supply chosen.new) (AreToCome B.geometry S.supply chosen.old)
        (K.accepted sink.old) (K.accepted sink.new)) }
{
    match args.task {
        Task::Find(query) => {
            let command = InText { command: &query };
            return Ok(report_all(&command, desk, chosen, sink)?.ending(args));
        }
        Task::Check(query) => {
            let command = InText { command: &query };
            return Ok(report_all(&command, desk, chosen, sink)?.ending(args));
        }
        Task::Solution(query) => {
            let command = InText { command: &query };
            return Ok(report_all(&command, desk, chosen, sink)?.ending(args));
        }
        Task::Page(query) => {
            return Ok(page_problems(desk, chosen, &query, sink)?.ending(args));
        }
        Task::Same(query) => {
            return Ok(same_problems(desk.alloc, chosen, &query, sink)?.ending(args));
        }
        Task::Certify(query) => {
            let command = InText { command: &query };
            return report_first::<&'a str, _, _, _, _, _>(&command, desk, chosen, sink);
        }
        Task::Moves(query) => {
            let command = InText { command: &query };
            return report_first::<&'a str, _, _, _, _, _>(&command, desk, chosen, sink);
        }
        Task::Mend(query) => {
            return report_first::<&'a str, _, _, _, _, _>(&query, desk, chosen, sink);
        }
        Task::Token { line } => {
            let command = Line { text: line };
            return report_first::<&'a str, _, _, _, _, _>(&command, desk, chosen, sink);
        }
    }
}

/// Returns the form of the text: tags for `check`, else as the arguments say.
fn form_of(args: &DeskArgs<'_>) -> Form
    ensures { result ≡ form_for args.now.task args.now.form }
{
    match args.task {
        Task::Check(_) => Form::Pdn,
        _ => args.form,
    }
}
