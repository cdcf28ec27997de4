//! Replies that exist whatever is played, found on sets of squares without a list of moves.
ghost use Rattle.std.specs.Prelude.{◌≡◌, ◌↔◌, ◌⊎◌, ℕ, IsTrue, IsNone, IfSome};
ghost use Rattle.std.specs.FinSet as set;
ghost use Rattle.dw_board.specs.Geometry.{OnBoard};
ghost use Rattle.dw_moves.specs.Moves as moved;
ghost use Rattle.dw_moves.specs.Moves.{CanCapture, In, Legal};
ghost use Rattle.dw_moves.specs.Replies.{SafeStep, HasSureReply, IsSureStep, AlwaysReply};
ghost use Rattle.dw_moves.specs.inner.Glance.{AreSets, NoneSure};
ghost use Rattle.dw_moves.specs.inner.Shelter.{OpenIn, ExposedIn};

use crate::field::{Field, has_two};
use crate::glance::{can_capture, other_steps};
use crate::moves::Move;
use crate::play::play;
use dw_board::{Board, Dir, Position, Squares, step};

/// Returns `true` if the other side surely has a reply to every move. It returns `false` if this is not seen at a
/// glance.
///
/// A reply is sure if pieces of the other side that cannot be taken could go one square to two different squares or
/// more, if it were its turn. One move stands in the way of only one of these steps.
///
/// If nothing can be taken, none of its pieces can. Else a piece cannot be taken if on each diagonal the edge or a
/// piece of its own side is next to it.
pub fn has_sure_reply<B: Board>(position: &Position<B>) -> bool
    ensures exact { IsTrue result ↔ HasSureReply B.geometry position.now }
    ensures replies { IsTrue result → AlwaysReply B.geometry position.now }
{
    if !has_two(other_steps(position)) {
        return false;
    }
    if has_two(safe_steps(position)) {
        return true;
    }
    !can_capture(position)
}

/// Returns a legal move of one square, and the position after it, in which the other side is seen to have no win in one
/// move: a reply to each of its moves is sure. `None` if something can be taken, or if there is no such move. It lists
/// no moves.
pub fn sure_step<B: Board>(position: &Position<B>) -> Option<(Move<B>, Position<B>)>
    ensures legal { IfSome result (λ found. Legal B.geometry position.now found.0) }
    ensures some { IfSome result (λ found. IsSureStep B.geometry position.now found.0) }
    ensures after { IfSome result (λ found. found.1 ≡ moved.play B.geometry position.now found.0) }
    ensures none { IsNone result → CanCapture B.geometry position.now
        ⊎ ((m : moved.Move) → IsSureStep B.geometry position.now m → ⊥) }
{
    if can_capture(position) {
        return None;
    }
    let field = Field::of(position);
    if let Some(found) = sure_towards(position, &field, Dir::UpLeft) {
        return Some(found);
    }
    if let Some(found) = sure_towards(position, &field, Dir::UpRight) {
        return Some(found);
    }
    if let Some(found) = sure_towards(position, &field, Dir::DownLeft) {
        return Some(found);
    }
    sure_towards(position, &field, Dir::DownRight)
}

/// Returns such a move in one direction. The position must have no capture, and `field` must have its sets.
#[inline(always)]
fn sure_towards<B: Board>(
    position: &Position<B>,
    field: &Field<B>,
    direction: Dir,
) -> Option<(Move<B>, Position<B>)>
    requires sets { AreSets B.geometry position.now field.now.men field.now.kings field.now.enemies field.now.occupied }
    requires quiet { CanCapture B.geometry position.now → ⊥ }
    ensures legal { IfSome result (λ found. Legal B.geometry position.now found.0) }
    ensures some { IfSome result (λ found. IsSureStep B.geometry position.now found.0) }
    ensures after { IfSome result (λ found. found.1 ≡ moved.play B.geometry position.now found.0) }
    ensures none { IsNone result → NoneSure B.geometry position.now field.now.men field.now.kings field.now.occupied
        direction set.empty }
{
    let back = direction.opposite();
    let mut left = field.next_free(position.turn(), direction);
    'goals: while let Some((to, rest)) = left.split() {
        if let Some(from) = step(to, back) {
            let found = Move::quiet(from, to);
            let after = play(position, &found);
            if has_sure_reply(&after) {
                return Some((found, after));
            }
        }
        left = rest;
    }
    None
}

/// Returns the squares to which a piece of the other side that is not exposed could go one square, if it were its turn.
#[inline]
fn safe_steps<B: Board>(position: &Position<B>) -> Squares<B>
    ensures { (t : ℕ) → In t result ↔ ((s : ℕ) × SafeStep B.geometry position.now s t) }
{
    let side = position.turn().other();
    let field = Field::with_turn(position, side);
    let exposed = exposed(position.all_of(side));
    let sheltered = Field {
        men: field.men.minus(exposed),
        kings: field.kings.minus(exposed),
        enemies: field.enemies,
        occupied: field.occupied,
    };
    sheltered.all_next_free(side)
}

/// Returns the pieces with an open square on both sides of a diagonal: on the board, and none of these pieces on it.
#[inline]
fn exposed<B: Board>(pieces: Squares<B>) -> Squares<B>
    requires { (s : ℕ) → In s pieces → OnBoard B.geometry s }
    ensures { (s : ℕ) → In s result ↔ (In s pieces × ExposedIn B.geometry pieces s) }
{
    let falling = open_towards(pieces, Dir::UpLeft).and(open_towards(pieces, Dir::DownRight));
    let rising = open_towards(pieces, Dir::UpRight).and(open_towards(pieces, Dir::DownLeft));
    falling.or(rising)
}

/// Returns the pieces with an open square next to them in a direction: on the board, and none of these pieces on it.
#[inline]
fn open_towards<B: Board>(pieces: Squares<B>, direction: Dir) -> Squares<B>
    requires { (s : ℕ) → In s pieces → OnBoard B.geometry s }
    ensures { (s : ℕ) → In s result ↔ (In s pieces × OpenIn B.geometry pieces s direction) }
{
    let next = pieces.shifted(direction).minus(pieces);
    next.shifted(direction.opposite())
}
