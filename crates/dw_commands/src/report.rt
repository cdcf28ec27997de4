//! The commands of `dw`: a report on the problems of a source, written to a sink.
ghost use Rattle.std.specs.Prelude.{◌≡◌, ◌≤◌, List, Option, Result, Some, Err, [], true, false, IfErr, IfOk};
ghost use Rattle.std.specs.Prelude.{option_map};
ghost use Rattle.std.specs.Option.{option_copied};
ghost use Rattle.dw_commands.specs.Ending.{ending_of};
ghost use Rattle.dw_commands.specs.Reports.{EndsBefore, IsLineOf, command_for, request_for};
ghost use Rattle.dw_commands.specs.Reports as of;
ghost use Rattle.dw_list.specs.Tokens.{token_fault};
ghost use Rattle.dw_memo.specs.Choice.{content_of};
ghost use Rattle.dw_moves.specs.Moves.{Move as AnyMove};
ghost use Rattle.dw_report.specs.Request.{request_of};
ghost use Rattle.dw_report.specs.Running.{Runs, StopsRightly};

use crate::ending::Ending;
use crate::memo::{LeakedMemo, memo_of};
use arrayvec::ArrayVec;
use dw_arguments::{ReportArgs, ReportCommand};
use dw_board::Board;
use dw_list::{TokenFault, read_token};
use dw_moves::Move;
use dw_notation::{MAX_MOVES, Sink, Source};
use dw_report::run::run;
use dw_report::{Command, RunFault, Settings, Summary};
use dw_solve::ByTrial;
use std::alloc::Global;

/// A report that is ready to be written: its settings, and an empty memo.
#[derive(Drop)]
pub struct Job<B: Board> {
    pub settings: Settings<B>,
    pub memo: LeakedMemo<B>,
    pub ghost some_moves: { 1 ≤ settings.n },
    pub ghost few_moves: { settings.n ≤ 20 },
    pub ghost some_lines: { 1 ≤ settings.lines },
    pub ghost some_positions: { 1 ≤ settings.limit },
    pub ghost empty: { content_of memo ≡ [] },
}

impl<B: Board> Job<B> {
    /// Makes a report ready: reads the token, if there is one, and then makes the memo.
    ///
    /// # Errors
    ///
    /// The program ends: the token cannot be read, or memory was refused.
    pub fn new<T>(alloc: Global, args: &ReportArgs<'_>) -> Result<Self, Ending<T>>
        ensures request { IfOk result (λ job. (after : Option (List AnyMove))
            × IsLineOf B.geometry (option_copied args.now.after) after
            × (request_of job.settings ≡ request_for args.now after)) }
        ensures limit { IfOk result (λ job. job.settings.limit ≡ args.now.positions) }
        ensures ends { IfErr result (EndsBefore B.geometry (option_copied args.now.after)) }
    {
        let after = match line_of::<B>(args.after) {
            Ok(after) => after,
            Err(fault) => return Err(Ending::TokenRefused(fault)),
        };
        let Ok(memo) = memo_of(alloc, args.memo, args.cache) else {
            return Err(Ending::no_memory());
        };
        Ok(Job {
            settings: settings_of(args, after),
            memo,
        })
    }

    /// Writes the report on the problems of a source to a sink, and returns how the program ends. The source and the
    /// sink must not have failed.
    pub fn run<T, S: Source, K: Sink>(
        self,
        alloc: Global,
        source: &mut S,
        sink: &mut K,
    ) -> Ending<T>
        requires source { S.is_failed source.old ≡ false }
        requires sink { K.is_failed sink.old ≡ false }
        ensures { (ran : Result Summary RunFault)
            × Runs B.geometry (request_of self.settings) (S.supply source.old) (S.supply source.new)
            (K.accepted sink.old) (K.accepted sink.new) ran
            × (ran ≡ Err RunFault.Read → S.is_failed source.new ≡ true)
            × (ran ≡ Err RunFault.Write → K.is_failed sink.new ≡ true)
            × StopsRightly self.settings.command 0 self.settings.limit ran
            × (result ≡ ending_of ran self.settings.only) }
    {
        let Job { settings, memo } = self;
        let only = settings.only;
        let ran = run(alloc, source, sink, &settings, memo, ByTrial);
        Ending::after(ran, only)
    }
}

/// Returns the line of the token, if there is one.
fn line_of<B: Board>(
    token: Option<&str>,
) -> Result<Option<ArrayVec<Move<B>, MAX_MOVES>>, TokenFault>
    ensures line { IfOk result (λ line.
        IsLineOf B.geometry (option_copied token.entry) (option_map (λ l. l.items) line)) }
    ensures fault { IfErr result (λ fault. of.fault_of B.geometry (option_copied token.entry) ≡ Some fault) }
{
    match token {
        None => Ok(None),
        Some(token) => Ok(Some(read_token::<B>(token.as_bytes())?)),
    }
}

/// Returns the settings of the run, with the line after which lines are listed.
fn settings_of<B: Board>(
    args: &ReportArgs<'_>,
    after: Option<ArrayVec<Move<B>, MAX_MOVES>>,
) -> Settings<B>
    ensures { result ≡ record {
      command = command_for args.now.command args.now.json;
      form = args.now.form;
      n = args.now.n.value;
      only = args.now.only;
      lines = args.now.lines;
      after = after;
      limit = args.now.positions;
    } }
{
    Settings {
        command: command_of(args.command, args.json),
        form: args.form,
        n: args.n.value,
        only: args.only,
        lines: args.lines,
        after,
        limit: args.positions,
    }
}

/// Returns the command of the report that the arguments name. `show` and `moves` may write rows of JSON.
fn command_of(command: ReportCommand, json: bool) -> Command
    ensures { result ≡ command_for command json }
{
    match command {
        ReportCommand::Show if json => Command::ShowRow,
        ReportCommand::Show => Command::Show,
        ReportCommand::Moves if json => Command::MovesRow,
        ReportCommand::Moves => Command::Moves,
        ReportCommand::Judge => Command::Judge,
        ReportCommand::List => Command::List,
    }
}
