//! Tests of the whole board at once, by sets of squares, without a list of moves.
ghost use Rattle.std.specs.Prelude.{◌≡◌, ◌≤◌, ◌↔◌, ℕ, IsTrue, IsNone, IfSome};
ghost use Rattle.dw_moves.specs.Moves.{CanCapture, In, IsQuietCount, Legal, Move};
ghost use Rattle.dw_moves.specs.inner.Glance.{AreSets, CanStep, MenTake};
ghost use Rattle.dw_moves.specs.Replies.{passed, OneStep};

use crate::field::Field;
use crate::quiet::count_on;
use dw_board::{Board, Dir, Position, Squares};

/// Returns whether the side to move can take something.
///
/// A man can take an adjacent enemy, forward or backward, if the next square is empty. A king can take the one enemy on
/// a diagonal with only empty squares before it and an empty square after it.
#[inline]
pub fn can_capture<B: Board>(position: &Position<B>) -> bool
    ensures { IsTrue result ↔ CanCapture B.geometry position.now }
{
    Field::of(position).takes()
}

/// Returns the number of legal moves if nothing can be taken, at most 400, or `None` without a count if something can
/// be.
#[inline]
pub fn count_if_quiet<B: Board>(position: &Position<B>) -> Option<u32>
    ensures none { IsNone result ↔ CanCapture B.geometry position.now }
    ensures some { IfSome result (IsQuietCount B.geometry position.now) }
    ensures small { IfSome result (λ count. count ≤ 400) }
{
    let field = Field::of(position);
    if field.men_take() {
        None
    } else if field.kings.is_empty() {
        Some(count_on(position, &field))
    } else {
        count_unless_kings_take(position, &field)
    }
}

/// Returns the number of legal moves, at most 400, or `None` if a king can take something. No man may be able to take
/// something, and `field` must have the sets of the position.
#[inline(never)]
fn count_unless_kings_take<B: Board>(position: &Position<B>, field: &Field<B>) -> Option<u32>
    requires sets { AreSets B.geometry position.now field.now.men field.now.kings field.now.enemies
        field.now.occupied }
    requires men { (d : Dir) (t : ℕ) → MenTake B.geometry field.now.men field.now.enemies field.now.occupied d t → ⊥ }
    ensures none { IsNone result ↔ CanCapture B.geometry position.now }
    ensures some { IfSome result (IsQuietCount B.geometry position.now) }
    ensures small { IfSome result (λ count. count ≤ 400) }
{
    if field.slide_to_take() {
        None
    } else {
        Some(count_on(position, field))
    }
}

/// Returns whether the side to move has a quiet move, whether or not it must capture.
pub(crate) fn can_step<B: Board>(position: &Position<B>) -> bool
    ensures { IsTrue result ↔ CanStep B.geometry position.now }
{
    let field = Field::of(position);
    let side = position.turn();
    field.steps(side, Dir::UpLeft)
        || field.steps(side, Dir::UpRight)
        || field.steps(side, Dir::DownLeft)
        || field.steps(side, Dir::DownRight)
}

/// Returns the squares to which a piece of the other side could go one square, if it were its turn: a man forward, a
/// king in any direction.
#[inline]
pub fn other_steps<B: Board>(position: &Position<B>) -> Squares<B>
    ensures { (t : ℕ) → In t result ↔ ((s : ℕ) × OneStep B.geometry (passed position.now) s t) }
{
    let side = position.turn().other();
    Field::with_turn(position, side).all_next_free(side)
}

/// Returns whether the side to move has a legal move.
pub fn has_move<B: Board>(position: &Position<B>) -> bool
    ensures { IsTrue result ↔ ((m : Move) × Legal B.geometry position.now m) }
{
    can_step(position) || can_capture(position)
}
