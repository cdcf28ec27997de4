//! The sound neighbours of a position, each in a line as soon as it is known.
ghost use Rattle.std.specs.Prelude.{◌≡◌, ◌⊎◌, ℕ, ◌+◌, ◌-◌, ◌≤◌, false, true, take, length, List, Some, Err, IfOk};
ghost use Rattle.std.specs.Prelude.{IfSome};
ghost use Rattle.std.specs.Prelude.{IsErrOf, OnOk, MatchOption, map};
ghost use Rattle.dw_moves.specs.Moves.{Move as AnyMove};
ghost use Rattle.dw_verdict.specs.Verdict.{IsVerdict, sound};
ghost use Rattle.dw_notation.specs.Streams.{Appends};
ghost use Rattle.dw_notation.specs.Writes.{StopsShort};
ghost use Rattle.dw_board.specs.Placement.{Placement};
ghost use Rattle.dw_memo.specs.Content.{IsMap};
ghost use Rattle.dw_solve.specs.declared.stop.Stop.TheVariants as stops;
ghost use Rattle.dw_solve.specs.declared.stop.Stop.TheVariants.{Limit};
ghost use Rattle.dw_solve.specs.Facts.{AreTrue};
ghost use Rattle.dw_solve.specs.Searching.{IsCounted};
ghost use Rattle.dw_mend.specs.Changes.{Change as Changed, AreNeighbours};
ghost use Rattle.dw_mend.specs.MendText.{IsLineOf};
ghost use Rattle.dw_mend.specs.Mending.{IsMendText, IsMendStop, AreBounded, AreMended, Counts};
ghost use Rattle.dw_parts.specs.Parts.{part_of};
ghost use Rattle.dw_mend.specs.Telling.{told_by};
ghost use Rattle.dw_mend.specs.declared.mend.MendFault.TheVariants as because;
ghost use Rattle.dw_mend.specs.inner.Mending.{IsSoundnessOf, IsUndecided, Adds, Goes, Leaves};

use crate::neighbours::{Neighbour, neighbours};
use crate::rows::{Wording, last_line, line_of};
use crate::soundness::sound_key;
use dw_board::{Board, Position};
use dw_memo::Memo;
use dw_moves::Move;
use dw_notation::{Sink, WriteFault, write_all};
use dw_parts::{Part, part_of};
use dw_solve::{Guide, Solver, Stop};
use dw_stipulation::MoveCount;
use std::alloc::{AllocError, Global};
use thiserror::Error;

/// The neighbours to look at, and the bounds of the search.
#[derive(Clone, Copy, Debug, PartialEq, Eq)]
pub struct MendBounds {
    /// The number of moves in which a neighbour must be sound.
    pub moves: MoveCount,
    /// The most positions to expand for each neighbour, at least 1. `None` sets no bound.
    pub each: Option<u64>,
    /// The part of the neighbours to look at.
    pub part: Part,
    /// The form of the lines.
    pub wording: Wording,
}

/// The result for the neighbours that were looked at.
#[derive(Clone, Copy, Debug, Default, PartialEq, Eq)]
pub struct Mended {
    /// The number of neighbours.
    pub all: usize,
    /// The number of sound ones.
    pub sound: usize,
    /// The number of neighbours for which the bound on positions left the answer open.
    pub undecided: usize,
}

/// The reason why not all neighbours were looked at.
#[derive(Clone, Copy, Debug, PartialEq, Eq, Error)]
pub enum MendFault {
    /// Memory was refused, or the solver's own limit was met.
    #[error("stopped: {0}")]
    Stopped(Stop),
    /// The sink failed.
    #[error("write failed")]
    Write,
}

impl From<AllocError> for MendFault {
    ghost from_gives = { λ _ fault. fault ≡ because.Stopped stops.Memory };

    fn from(_refused: AllocError) -> MendFault {
        MendFault::Stopped(Stop::Memory)
    }
}

impl From<Stop> for MendFault {
    ghost from_gives = { λ stop fault. fault ≡ because.Stopped stop };

    fn from(stop: Stop) -> MendFault {
        MendFault::Stopped(stop)
    }
}

impl From<WriteFault> for MendFault {
    ghost from_gives = { λ _ fault. fault ≡ because.Write };

    fn from(_failed: WriteFault) -> MendFault {
        MendFault::Write
    }
}

/// Writes a line for each sound neighbour of a position, in the order of the changes, and then a line with their
/// number. The line of a neighbour has its change and its key. The bounds must be in the ranges of `MendBounds`, and
/// the sink must not have failed. A neighbour that would take more positions than the bounds allow stays undecided, and
/// is counted. The solver's watcher makes way before each line is written. After a stop the lines of the first
/// neighbours were written, all bounds in the memo are right, and the solver's limit is what it was. The error `Write`
/// comes only if the sink failed; then these lines, or the whole text, were written up to some byte.
pub fn mend<B: Board, M: Memo<B>, G: Guide<B>, K: Sink>(
    alloc: Global,
    solver: &mut Solver<B, M, G>,
    position: &Position<B>,
    bounds: MendBounds,
    sink: &mut K,
) -> Result<Mended, MendFault>
    requires room { IfSome bounds.each (λ bound. 1 ≤ bound) }
    requires works { K.is_failed sink.old ≡ false }
    ensures text { IfOk result (λ mended. (text : List ℕ)
        × IsMendText bounds.wording B.geometry position.now bounds.moves.value bounds.each bounds.part.number
        bounds.part.parts mended.all mended.sound mended.undecided (solver.new.expanded - solver.old.expanded) text
        × Appends (K.accepted sink.old) (K.accepted sink.new) text) }
    ensures bounded { IfOk result (λ mended. AreBounded bounds.each mended.all mended.undecided solver.old.expanded
        solver.new.expanded) }
    ensures stopped { (stop : _) → result ≡ Err (because.Stopped stop)
        → (text : List ℕ) × ((all : List (Changed × Placement)) → AreNeighbours B.geometry position.now all
        → IsMendStop bounds.wording B.geometry bounds.moves.value bounds.each
        (part_of bounds.part.number bounds.part.parts all) text)
        × Appends (K.accepted sink.old) (K.accepted sink.new) text }
    ensures short { result ≡ Err because.Write
        → (text : List ℕ) × StopsShort (K.accepted sink.old) (K.accepted sink.new) text
        × (((all : List (Changed × Placement)) → AreNeighbours B.geometry position.now all
        → IsMendStop bounds.wording B.geometry bounds.moves.value bounds.each
        (part_of bounds.part.number bounds.part.parts all) text)
        ⊎ ((mended sound undecided : ℕ) × IsMendText bounds.wording B.geometry position.now bounds.moves.value
        bounds.each bounds.part.number bounds.part.parts mended sound undecided
        (solver.new.expanded - solver.old.expanded) text
        × AreBounded bounds.each mended undecided solver.old.expanded solver.new.expanded)) }
    ensures count { IsCounted solver.old.expanded solver.old.limit solver.new.expanded solver.new.limit }
    ensures stop { result ≡ Err (because.Stopped Limit) → solver.new.expanded ≡ solver.new.limit }
    ensures right { AreTrue B.geometry (M.content solver.new.memo) }
    ensures map { IsMap (M.content solver.new.memo) }
    ensures sink { OnOk result (K.is_failed sink.new ≡ false) }
    ensures write { result ≡ Err because.Write → K.is_failed sink.new ≡ true }
{
    solver.keeps_its_limit();
    solver.keeps_its_facts();
    let all = neighbours(alloc, position)?;
    let some = part_of(alloc, all.as_slice(), bounds.part)?;
    let mended = mend_these(alloc, solver, some.as_slice(), bounds, sink)?;
    let line = last_line(alloc, bounds.wording, &mended)?;
    solver.make_way();
    write_all(sink, line.as_str().as_bytes())?;
    Ok(mended)
}

/// Writes the sound ones of some neighbours, and counts them.
fn mend_these<B: Board, M: Memo<B>, G: Guide<B>, K: Sink>(
    alloc: Global,
    solver: &mut Solver<B, M, G>,
    some: &[Neighbour<B>],
    bounds: MendBounds,
    sink: &mut K,
) -> Result<Mended, MendFault>
    requires room { IfSome bounds.each (λ bound. 1 ≤ bound) }
    requires works { K.is_failed sink.old ≡ false }
    ensures text { IfOk result (λ mended. (text : List ℕ)
        × AreMended bounds.wording B.geometry bounds.moves.value bounds.each (map told_by some.now) text (record {
          sound = mended.sound;
          undecided = mended.undecided;
          expanded = solver.new.expanded - solver.old.expanded;
        })
        × Appends (K.accepted sink.old) (K.accepted sink.new) text) }
    ensures all { IfOk result (λ mended. mended.all ≡ length some.now) }
    ensures bounded { IfOk result (λ mended. AreBounded bounds.each mended.all mended.undecided solver.old.expanded
        solver.new.expanded) }
    ensures stopped { (stop : _) → result ≡ Err (because.Stopped stop)
        → (text : List ℕ)
        × IsMendStop bounds.wording B.geometry bounds.moves.value bounds.each (map told_by some.now) text
        × Appends (K.accepted sink.old) (K.accepted sink.new) text }
    ensures short { result ≡ Err because.Write
        → (text : List ℕ) × StopsShort (K.accepted sink.old) (K.accepted sink.new) text
        × IsMendStop bounds.wording B.geometry bounds.moves.value bounds.each (map told_by some.now) text }
    ensures leaves { Leaves B.geometry M.content solver.old solver.new result }
    ensures sink { OnOk result (K.is_failed sink.new ≡ false) }
    ensures write { result ≡ Err because.Write → K.is_failed sink.new ≡ true }
{
    solver.keeps_its_limit();
    solver.keeps_its_facts();
    let mut mended = Mended {
        all: some.len(),
        sound: 0,
        undecided: 0,
    };
    'neighbours: for neighbour in some {
        match write_found(alloc, solver, neighbour, bounds, sink)? {
            Soundness::Sound(_) => mended.sound += 1,
            Soundness::Unsound => {}
            Soundness::Undecided => mended.undecided += 1,
        }
    }
    Ok(mended)
}

/// The soundness of a neighbour, as far as it is known.
#[derive(Drop)]
enum Soundness<B: Board> {
    /// It is sound, by this key.
    Sound(Move<B>),
    Unsound,
    /// All positions that the bound allows for one neighbour were expanded.
    Undecided,
}

impl<B: Board> Soundness<B> {
    /// Returns the soundness of a position by its key, which it has only if it is sound.
    fn of(key: Option<Move<B>>) -> Self
        ensures { (p : Placement) (n : ℕ) → MatchOption key ((m : AnyMove) → IsVerdict B.geometry p n (sound m) → ⊥)
            (λ m. IsVerdict B.geometry p n (sound m))
            → IsSoundnessOf B.geometry p n result × (IsUndecided result → ⊥) }
    {
        match key {
            Some(key) => Soundness::Sound(key),
            None => Soundness::Unsound,
        }
    }
}

/// Writes the line of a neighbour if it is sound, and returns its soundness.
fn write_found<B: Board, M: Memo<B>, G: Guide<B>, K: Sink>(
    alloc: Global,
    solver: &mut Solver<B, M, G>,
    neighbour: &Neighbour<B>,
    bounds: MendBounds,
    sink: &mut K,
) -> Result<Soundness<B>, MendFault>
    requires room { IfSome bounds.each (λ bound. 1 ≤ bound) }
    requires works { K.is_failed sink.old ≡ false }
    ensures text { IfOk result (λ found. (text : List ℕ)
        × Adds bounds.wording B.geometry bounds.moves.value (told_by neighbour.now) found text
        × Appends (K.accepted sink.old) (K.accepted sink.new) text) }
    ensures goes { Goes bounds.each solver.old.expanded solver.old.limit solver.new.expanded solver.new.limit result }
    ensures stopped { (stop : _) → result ≡ Err (because.Stopped stop) → K.accepted sink.new ≡ K.accepted sink.old }
    ensures short { result ≡ Err because.Write → (key : AnyMove) × (line : List ℕ)
        × IsVerdict B.geometry neighbour.now.position bounds.moves.value (sound key)
        × IsLineOf bounds.wording B.geometry bounds.moves.value (told_by neighbour.now) key line
        × StopsShort (K.accepted sink.old) (K.accepted sink.new) line }
    ensures right { AreTrue B.geometry (M.content solver.new.memo) }
    ensures map { IsMap (M.content solver.new.memo) }
    ensures sink { OnOk result (K.is_failed sink.new ≡ false) }
    ensures write { result ≡ Err because.Write → K.is_failed sink.new ≡ true }
{
    let found = find_soundness(alloc, solver, &neighbour.position, bounds)?;
    if let Soundness::Sound(key) = &found {
        let line = line_of(alloc, bounds.wording, neighbour, bounds.moves.value, key)?;
        solver.make_way();
        write_all(sink, line.as_str().as_bytes())?;
    }
    Ok(found)
}

/// Finds the soundness of a position, and expands no more positions than the bound allows for one neighbour.
fn find_soundness<B: Board, M: Memo<B>, G: Guide<B>>(
    alloc: Global,
    solver: &mut Solver<B, M, G>,
    position: &Position<B>,
    bounds: MendBounds,
) -> Result<Soundness<B>, Stop>
    requires room { IfSome bounds.each (λ bound. 1 ≤ bound) }
    ensures found { IfOk result (IsSoundnessOf B.geometry position.now bounds.moves.value) }
    ensures spent { IfOk result (λ found. IsUndecided found → (bound : ℕ) × (bounds.each ≡ Some bound)
        × (solver.new.expanded ≡ solver.old.expanded + bound)) }
    ensures few { IfSome bounds.each (λ bound. solver.new.expanded ≤ solver.old.expanded + bound) }
    ensures count { IsCounted solver.old.expanded solver.old.limit solver.new.expanded solver.new.limit }
    ensures stop { IsErrOf result Limit → solver.new.expanded ≡ solver.new.limit }
    ensures right { AreTrue B.geometry (M.content solver.new.memo) }
    ensures map { IsMap (M.content solver.new.memo) }
{
    match bounds.each {
        Some(bound) => found_within(alloc, solver, position, bounds.moves, bound),
        None => found_by_key(alloc, solver, position, bounds.moves),
    }
}

/// Finds the soundness of a position, and may expand any number of positions.
fn found_by_key<B: Board, M: Memo<B>, G: Guide<B>>(
    alloc: Global,
    solver: &mut Solver<B, M, G>,
    position: &Position<B>,
    moves: MoveCount,
) -> Result<Soundness<B>, Stop>
    ensures found { IfOk result (λ found. IsSoundnessOf B.geometry position.now moves.value found
        × (IsUndecided found → ⊥)) }
    ensures count { IsCounted solver.old.expanded solver.old.limit solver.new.expanded solver.new.limit }
    ensures stop { IsErrOf result Limit → solver.new.expanded ≡ solver.new.limit }
    ensures right { AreTrue B.geometry (M.content solver.new.memo) }
    ensures map { IsMap (M.content solver.new.memo) }
{
    Ok(Soundness::of(sound_key(alloc, solver, position, moves)?))
}

/// Finds the soundness of a position, and expands at most `bound` positions.
fn found_within<B: Board, M: Memo<B>, G: Guide<B>>(
    alloc: Global,
    solver: &mut Solver<B, M, G>,
    position: &Position<B>,
    moves: MoveCount,
    bound: u64,
) -> Result<Soundness<B>, Stop>
    requires room { 1 ≤ bound }
    ensures found { IfOk result (IsSoundnessOf B.geometry position.now moves.value) }
    ensures spent { IfOk result (λ found. IsUndecided found → solver.new.expanded ≡ solver.old.expanded + bound) }
    ensures few { solver.new.expanded ≤ solver.old.expanded + bound }
    ensures count { IsCounted solver.old.expanded solver.old.limit solver.new.expanded solver.new.limit }
    ensures stop { IsErrOf result Limit → solver.new.expanded ≡ solver.new.limit }
    ensures right { AreTrue B.geometry (M.content solver.new.memo) }
    ensures map { IsMap (M.content solver.new.memo) }
{
    let limit = solver.limit();
    let until = solver.expanded().saturating_add(bound);
    if limit <= until {
        return found_by_key(alloc, solver, position, moves);
    }
    solver.set_limit(until);
    let key = sound_key(alloc, solver, position, moves);
    solver.set_limit(limit);
    match key {
        Err(Stop::Limit) => Ok(Soundness::Undecided),
        key => Ok(Soundness::of(key?)),
    }
}
