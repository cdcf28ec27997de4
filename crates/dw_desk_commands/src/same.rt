//! The command `same`: the problems that repeat an earlier one.
ghost use Rattle.std.specs.Prelude.{◌≡◌, ◌<◌, ◌≤◌, ◌+◌, [], ℕ, List, false, IfErr, IfOk, OnOk};
ghost use Rattle.std.specs.Prelude.{if◌then◌else◌};
ghost use Rattle.dw_desk_commands.specs.Same.{IsSameOf, IsSamePart};
ghost use Rattle.dw_desk_commands.specs.declared.desk.Counts.{Counts as Counted};
ghost use Rattle.dw_desk_commands.specs.inner.Choosing.{AreToCome, GoesOn, HaveGames, MayBe, Runs};
ghost use Rattle.dw_desk_commands.specs.inner.Faults.{CommandFails, SinkFails};
ghost use Rattle.dw_desk_commands.specs.inner.Repeating.{Compares, IsAdded, has_position, is_counted};
ghost use Rattle.dw_desk_commands.specs.inner.Repeating.{is_repeated, last_of};
ghost use Rattle.dw_desk_commands.specs.declared.same.Outcome.{Outcome as OutcomeOf};
ghost use Rattle.dw_desk_commands.specs.inner.Standing.{Stands, StandsOf};
ghost use Rattle.dw_games.specs.GameReading.{numbered_game};
ghost use Rattle.dw_games.specs.Games.{NumberedGame};
ghost use Rattle.dw_notation.specs.Streams.{Appends};

use crate::chosen::Chosen;
use crate::desk::{Counts, DeskFault};
use crate::page::write_piece;
use crate::reporting::refused_output;
use dw_arguments::SameArgs;
use dw_board::Board;
use dw_games::Game;
use dw_notation::{Sink, Source};
use dw_same::{ProblemIndex, count_text, repeat_text};
use std::alloc::{AllocError, Global};

/// What comparing a problem with those before it gave.
#[derive(Clone, Copy)]
pub(crate) enum Outcome {
    Refused,
    New,
    Repeated,
}

/// The numbers of problems so far.
#[derive(Clone, Copy, Default)]
pub(crate) struct Tally {
    counts: Counts,
    positions: u32,
    repeats: u32,
}

impl Tally {
    /// Counts one problem more.
    fn with(self, outcome: Outcome) -> Tally
        ensures counts { self.counts.shown < 4294967295 → self.counts.refused < 4294967295 → result.counts ≡ record {
          shown = self.counts.shown + 1;
          refused = self.counts.refused + (if is_counted outcome then 1 else 0);
        } }
        ensures positions { self.positions < 4294967295
            → result.positions ≡ self.positions + (if has_position outcome then 1 else 0) }
        ensures repeats { self.repeats < 4294967295
            → result.repeats ≡ self.repeats + (if is_repeated outcome then 1 else 0) }
        ensures some { 1 ≤ result.counts.shown }
    {
        let (has_position, is_repeated) = match outcome {
            Outcome::Refused => (false, false),
            Outcome::New => (true, false),
            Outcome::Repeated => (true, true),
        };
        Tally {
            counts: self.counts.with(is_repeated || !has_position),
            positions: self.positions.saturating_add(u32::from(has_position)),
            repeats: self.repeats.saturating_add(u32::from(is_repeated)),
        }
    }
}

/// Writes the problems that repeat an earlier one, each as soon as it is read, and then how many they are.
pub(crate) fn same_problems<B: Board, S: Source, K: Sink>(
    alloc: Global,
    chosen: &mut Chosen<'_, B, S>,
    query: &SameArgs,
    sink: &mut K,
) -> Result<Counts, DeskFault>
    requires works { K.is_failed sink.old ≡ false }
    requires runs { Runs chosen.old.text }
    requires games { HaveGames B.geometry S.supply chosen.old }
    ensures report { IfOk result (λ counts. (games : List NumberedGame) × (text : List ℕ)
        × ((whole : List ℕ) → MayBe S.supply chosen.new whole
        → AreToCome B.geometry S.supply chosen.old whole games)
        × IsSameOf B.geometry query.now chosen.old.portion games counts text
        × Appends (K.accepted sink.old) (K.accepted sink.new) text) }
    ensures on { GoesOn S.supply chosen.old.text chosen.new.text }
    ensures ends { (expanded : ℕ) → CommandFails S.is_failed (K.is_failed sink.new) expanded chosen.old chosen.new
        result }
    ensures stands { IfErr result (StandsOf (IsSamePart B.geometry query.now)
        (λ games text. (counts : Counted) × IsSameOf B.geometry query.now chosen.old.portion games counts text)
        (MayBe S.supply chosen.new) (AreToCome B.geometry S.supply chosen.old)
        (K.accepted sink.old) (K.accepted sink.new)) }
{
    let mut index = ProblemIndex::new(alloc);
    let mut tally = Tally::default();
    'games: while let Some(game) = chosen.next()? {
        tally = tally.with(write_compared(alloc, query, &mut index, &game, sink)?);
    }
    write_last(alloc, query, chosen.must_exist(), tally, sink)?;
    Ok(tally.counts)
}

/// Compares a problem with those before it, adds it to them, and writes its text.
fn write_compared<B: Board, K: Sink>(
    alloc: Global,
    query: &SameArgs,
    index: &mut ProblemIndex<B>,
    game: &Game<B>,
    sink: &mut K,
) -> Result<Outcome, DeskFault>
    requires { K.is_failed sink.old ≡ false }
    ensures text { IfOk result (λ outcome. (text : List ℕ)
        × Appends (K.accepted sink.old) (K.accepted sink.new) text
        × Compares B.geometry query.now.json index.old (numbered_game game.now) outcome text) }
    ensures added { OnOk result (IsAdded B.geometry index.old index.new (numbered_game game.now)) }
    ensures works { IfOk result (λ _. K.is_failed sink.new ≡ false) }
    ensures fails { SinkFails (K.is_failed sink.new) result }
    ensures stands { IfErr result (Stands (λ text. text ≡ []) (λ text. (outcome : OutcomeOf)
        × Compares B.geometry query.now.json index.old (numbered_game game.now) outcome text) (K.accepted sink.old)
        (K.accepted sink.new)) }
{
    let (text, outcome) = compared(alloc, query.json, index, game)?;
    write_piece(text.as_slice(), sink)?;
    Ok(outcome)
}

/// Compares a problem with those before it, adds it to them, and makes its text.
fn compared<B: Board>(
    alloc: Global,
    json: bool,
    index: &mut ProblemIndex<B>,
    game: &Game<B>,
) -> Result<(Vec<u8>, Outcome), AllocError>
    ensures text { IfOk result (λ made. Compares B.geometry json index.old (numbered_game game.now) made.1
        made.0.items) }
    ensures added { OnOk result (IsAdded B.geometry index.old index.new (numbered_game game.now)) }
{
    let problem = &game.problem;
    let position = match &problem.found {
        Ok(position) => position,
        Err(fault) => {
            let text = refused_output(alloc, json, problem, *fault)?;
            return Ok((text, Outcome::Refused));
        }
    };
    match index.add(problem.number, position)? {
        None => Ok((Vec::new(alloc), Outcome::New)),
        Some(repeat) => {
            let text = repeat_text(alloc, json, problem.number, position, repeat)?;
            Ok((text.into_bytes(), Outcome::Repeated))
        }
    }
}

/// Writes the last text, or nothing if problems were asked for by their numbers and none of them is there.
fn write_last<K: Sink>(
    alloc: Global,
    query: &SameArgs,
    must_exist: bool,
    tally: Tally,
    sink: &mut K,
) -> Result<(), DeskFault>
    requires { K.is_failed sink.old ≡ false }
    ensures text { OnOk result (Appends (K.accepted sink.old) (K.accepted sink.new)
        (last_of query.now.json must_exist tally)) }
    ensures fails { SinkFails (K.is_failed sink.new) result }
    ensures stands { IfErr result (Stands (λ text. text ≡ []) (λ text. text ≡ last_of query.now.json must_exist tally)
        (K.accepted sink.old) (K.accepted sink.new)) }
{
    if must_exist && tally.counts.shown == 0 {
        return Ok(());
    }
    let text = count_text(alloc, query.json, tally.repeats, tally.positions)?;
    write_piece(text.as_bytes(), sink)
}
