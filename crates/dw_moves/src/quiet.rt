//! Quiet moves.
ghost use Rattle.std.specs.Prelude.{◌≡◌, ◌≤◌, ◌↔◌, ◌++◌, ℕ, length, map, IsTrue, OnOk};
ghost use Rattle.dw_board.specs.Geometry.{OnBoard};
ghost use Rattle.dw_moves.specs.Moves.{IsQuietCount, Quiet, ray};
ghost use Rattle.dw_board.specs.Lists.{Member};
ghost use Rattle.dw_board.specs.Placement.{same_side};
ghost use Rattle.dw_board.specs.declared.piece.Kind.TheVariants.{King};
ghost use Rattle.dw_moves.specs.Moves.{In};
ghost use Rattle.dw_moves.specs.inner.Glance.{AreSets};
ghost use Rattle.dw_moves.specs.inner.Plain as plain;
ghost use Rattle.dw_moves.specs.inner.Plain.{Adds, Counts, ManSteps, KingGoes, KingLands};

use crate::field::{Field, free_step};
use dw_board::{Board, Dir, Kind, Piece, Position, Side, Square, Squares, step};
use std::alloc::AllocError;

/// Returns the number of quiet moves of the side to move, whether or not it must capture. A man moves one square
/// diagonally forward to an empty square, White up and Black down. A king moves over any number of empty squares along
/// a diagonal.
pub fn quiet_count<B: Board>(position: &Position<B>) -> u32
    ensures { IsQuietCount B.geometry position.now result }
{
    count_on(position, &Field::of(position))
}

/// Returns the number of quiet moves, at most 400. `field` must have the sets of the position.
#[inline(always)]
pub(crate) fn count_on<B: Board>(position: &Position<B>, field: &Field<B>) -> u32
    requires { AreSets B.geometry position.now field.now.men field.now.kings field.now.enemies field.now.occupied }
    ensures value { IsQuietCount B.geometry position.now result }
    ensures small { result ≤ 400 }
{
    let up = men_count(position, Dir::UpLeft) + men_count(position, Dir::UpRight);
    let down = men_count(position, Dir::DownLeft) + men_count(position, Dir::DownRight);
    up + down + kings_count(position, field)
}

/// Returns the number of quiet moves of men in one direction, which is the number of squares they reach.
#[inline]
fn men_count<B: Board>(position: &Position<B>, direction: Dir) -> u32
    ensures value { Counts (ManSteps B.geometry position.now direction) result }
    ensures small { result ≤ 50 }
{
    u32::from(men_reach(position, direction).count())
}

/// Returns the number of quiet moves of kings.
#[inline]
fn kings_count<B: Board>(position: &Position<B>, field: &Field<B>) -> u32
    requires { AreSets B.geometry position.now field.now.men field.now.kings field.now.enemies field.now.occupied }
    ensures value { Counts (KingGoes B.geometry position.now) result }
    ensures small { result ≤ 200 }
{
    if field.kings.is_empty() {
        return 0;
    }
    let up = kings_run(position, field, Dir::UpLeft) + kings_run(position, field, Dir::UpRight);
    let down = kings_run(position, field, Dir::DownLeft)
        + kings_run(position, field, Dir::DownRight);
    up + down
}

/// Returns the number of quiet moves of kings in one direction, which is the number of squares they reach.
#[inline]
fn kings_run<B: Board>(position: &Position<B>, field: &Field<B>, direction: Dir) -> u32
    requires { AreSets B.geometry position.now field.now.men field.now.kings field.now.enemies field.now.occupied }
    ensures value { Counts (KingLands B.geometry position.now direction) result }
    ensures small { result ≤ 50 }
{
    let reached = field.kings.slid(field.occupied, direction);
    u32::from(reached.minus(field.kings).count())
}

/// Returns whether a piece may make a quiet move in this direction: a king in any, a man forward.
#[inline]
pub(crate) fn may_go(kind: Kind, side: Side, direction: Dir) -> bool
    ensures { result ≡ plain.may_go kind side direction }
{
    match (kind, side) {
        (Kind::King, _) => true,
        (Kind::Man, Side::White) => !direction.is_down(),
        (Kind::Man, Side::Black) => direction.is_down(),
    }
}

/// The elements of a list of quiet moves.
pub(crate) trait FromQuiet<B: Board> {
    ghost made: { ℕ → ℕ → Self };

    /// Returns the element for a quiet move from one square to another.
    fn from_quiet(from: &Square<B>, to: &Square<B>) -> Self
        ensures { result ≡ made from.now to.now };
}

/// Adds the quiet moves of the side to move, whether or not it must capture.
pub(crate) fn push_quiet<B: Board, T: FromQuiet<B> + Drop>(
    position: &Position<B>,
    moves: &mut Vec<T>,
) -> Result<(), AllocError>
    ensures { OnOk result (Adds T.made (Quiet B.geometry position.now) moves.old.items moves.new.items) }
{
    push_steps(position, Dir::UpLeft, moves)?;
    push_steps(position, Dir::UpRight, moves)?;
    push_steps(position, Dir::DownLeft, moves)?;
    push_steps(position, Dir::DownRight, moves)?;
    push_kings(position, moves)
}

/// Adds the quiet moves of men in one direction: each is found from the square that it reaches.
fn push_steps<B: Board, T: FromQuiet<B> + Drop>(
    position: &Position<B>,
    direction: Dir,
    moves: &mut Vec<T>,
) -> Result<(), AllocError>
    ensures { OnOk result (Adds T.made (ManSteps B.geometry position.now direction) moves.old.items moves.new.items) }
{
    let mut left = men_reach(position, direction);
    'squares: while let Some((to, rest)) = left.split() {
        if let Some(from) = step(to, direction.opposite()) {
            moves.push(T::from_quiet(&from, &to))?;
        }
        left = rest;
    }
    Ok(())
}

/// Returns the squares that men of the side to move reach in one direction, none if it is backward.
#[inline]
fn men_reach<B: Board>(position: &Position<B>, direction: Dir) -> Squares<B>
    ensures { (t : ℕ) → In t result ↔ ((s : ℕ) × ManSteps B.geometry position.now direction s t) }
{
    let side = position.turn();
    if may_go(Kind::Man, side, direction) {
        let next = position.squares(side, Kind::Man).shifted(direction);
        next.minus(position.occupied())
    } else {
        Squares::none()
    }
}

/// Adds the quiet moves of kings.
fn push_kings<B: Board, T: FromQuiet<B> + Drop>(
    position: &Position<B>,
    moves: &mut Vec<T>,
) -> Result<(), AllocError>
    ensures { OnOk result (Adds T.made (KingGoes B.geometry position.now) moves.old.items moves.new.items) }
{
    let mut left = position.squares(position.turn(), Kind::King);
    'squares: while let Some((square, rest)) = left.split() {
        push_king(position, square, moves)?;
        left = rest;
    }
    Ok(())
}

/// Adds the quiet moves of a king from a square.
fn push_king<B: Board, T: FromQuiet<B> + Drop>(
    position: &Position<B>,
    from: Square<B>,
    moves: &mut Vec<T>,
) -> Result<(), AllocError>
    requires { OnBoard B.geometry from }
    ensures { OnOk result (moves.new.items
        ≡ moves.old.items ++ map (T.made from) (plain.quiet_for King B.geometry position.now position.now.turn from)) }
{
    push_run(position, Kind::King, from, Dir::UpLeft, moves)?;
    push_run(position, Kind::King, from, Dir::UpRight, moves)?;
    push_run(position, Kind::King, from, Dir::DownLeft, moves)?;
    push_run(position, Kind::King, from, Dir::DownRight, moves)
}

/// Adds a move to each square that a piece can reach in one direction over empty squares, a man only one.
fn push_run<B: Board, T: FromQuiet<B> + Drop>(
    position: &Position<B>,
    kind: Kind,
    from: Square<B>,
    direction: Dir,
    moves: &mut Vec<T>,
) -> Result<(), AllocError>
    requires { OnBoard B.geometry from }
    ensures { OnOk result (moves.new.items
        ≡ moves.old.items ++ map (T.made from) (plain.landings_for kind position.now (ray B.geometry from direction))) }
{
    let mut at = from;
    'run: while let Some(landing) = free_step(position.occupied(), at, direction) {
        moves.push(T::from_quiet(&from, &landing))?;
        match kind {
            Kind::Man => break,
            Kind::King => at = landing,
        }
    }
    Ok(())
}

/// Returns whether the side to move has a quiet move between two squares.
pub(crate) fn is_quiet<B: Board>(position: &Position<B>, from: Square<B>, to: Square<B>) -> bool
    ensures { IsTrue result ↔ Quiet B.geometry position.now from to }
{
    match position.at(from) {
        Some(mover) if is_own(mover, position.turn()) => {
            goes_to(position, mover.kind, from, Dir::UpLeft, to)
                || goes_to(position, mover.kind, from, Dir::UpRight, to)
                || goes_to(position, mover.kind, from, Dir::DownLeft, to)
                || goes_to(position, mover.kind, from, Dir::DownRight, to)
        }
        _ => false,
    }
}

/// Returns whether the mover's piece may go to a square in one direction.
fn goes_to<B: Board>(
    position: &Position<B>,
    kind: Kind,
    from: Square<B>,
    direction: Dir,
    to: Square<B>,
) -> bool
    requires { OnBoard B.geometry from }
    ensures { IsTrue result ↔ Member to (plain.goes kind B.geometry position.now position.now.turn from direction) }
{
    may_go(kind, position.turn(), direction) && runs_to(position, kind, from, direction, to)
}

/// Returns whether a piece can reach a square in one direction over empty squares.
fn runs_to<B: Board>(
    position: &Position<B>,
    kind: Kind,
    from: Square<B>,
    direction: Dir,
    to: Square<B>,
) -> bool
    requires { OnBoard B.geometry from }
    ensures { IsTrue result ↔ Member to (plain.landings_for kind position.now (ray B.geometry from direction)) }
{
    let mut at = from;
    'run: while let Some(reached) = free_step(position.occupied(), at, direction) {
        if reached == to {
            return true;
        }
        match kind {
            Kind::Man => break,
            Kind::King => at = reached,
        }
    }
    false
}

/// Returns whether a piece is one of this side.
fn is_own(piece: Piece, side: Side) -> bool
    ensures { result ≡ same_side piece.side side }
{
    piece.side == side
}
