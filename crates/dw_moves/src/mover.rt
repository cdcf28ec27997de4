//! How men and kings capture: the enemy they meet, where they land, and whether they go on.
ghost use Rattle.std.specs.Prelude.{◌≡◌, ℕ, None, false, IfSome};
ghost use Rattle.std.specs.FinSet as set;
ghost use Rattle.dw_board.specs.Geometry.{OnBoard};
ghost use Rattle.dw_board.specs.Placement.{Placement};
ghost use Rattle.dw_board.specs.declared.piece.Kind.{Kind};
ghost use Rattle.dw_board.specs.declared.piece.Kind.TheVariants.{Man, King};
ghost use Rattle.dw_board.specs.declared.piece.Side.{Side};
ghost use Rattle.dw_moves.specs.Moves.{In, Jump, ray};
ghost use Rattle.dw_moves.specs.inner.Glance.{IsGround, JumpsTowards};
ghost use Rattle.dw_moves.specs.inner.Plain.{TakesOver, takes_for, no_jumps};

use crate::field::Field;
use dw_board::{Board, Dir, Kind, Square, Squares, step};

/// A kind of piece that captures. Its contracts hold at every position with these sets.
pub(crate) trait Mover<B: Board> {
    ghost as_kind: { Kind };

    /// Returns the kind.
    fn kind() -> Kind
        ensures { result ≡ as_kind };

    /// Returns the enemy that it meets first in a direction, or `None` only if it can take nothing there. There may be
    /// no empty square after that enemy.
    fn met(field: &Field<B>, from: &Square<B>, direction: Dir) -> Option<Square<B>>
        requires { OnBoard B.geometry from.now }
        ensures none { result ≡ None → (p : Placement) (side : Side)
            → IsGround B.geometry p side field.now.enemies field.now.occupied
            → takes_for as_kind p side (ray B.geometry from.now direction) ≡ no_jumps }
        ensures some { IfSome result (λ c. (p : Placement) (side : Side)
            → IsGround B.geometry p side field.now.enemies field.now.occupied
            → TakesOver as_kind B.geometry p side from.now direction c) }
        ensures enemy { IfSome result (λ c. In c field.now.enemies) }
        ensures on_board { IfSome result (OnBoard B.geometry) };

    /// Returns the squares from which it can jump in a direction over one of these pieces, and maybe others. Only empty
    /// squares count.
    fn starts_towards(field: &Field<B>, left: &Squares<B>, direction: Dir) -> Squares<B>
        ensures { (p : Placement) (side : Side) (s c t : ℕ)
            → IsGround B.geometry p side field.now.enemies field.now.occupied
            → OnBoard B.geometry s → (In s field.now.occupied → ⊥) → In c left.now
            → JumpsTowards B.geometry p (record { side = side; kind = as_kind }) s c t direction → In s result };
}

/// Returns the empty squares from which a piece of this kind can jump over an enemy that is not among these, and maybe
/// others.
#[inline(always)]
pub(crate) fn jump_starts<B: Board, M: Mover<B>>(field: &Field<B>, taken: Squares<B>) -> Squares<B>
    ensures { (p : Placement) (side : Side) (s c t : ℕ)
        → IsGround B.geometry p side field.now.enemies field.now.occupied
        → OnBoard B.geometry s → (In s field.now.occupied → ⊥) → set.contains taken c ≡ false
        → Jump B.geometry p (record { side = side; kind = M.as_kind }) s c t → In s result }
{
    let left = field.enemies.minus(taken);
    let up = M::starts_towards(field, &left, Dir::UpLeft).or(M::starts_towards(
        field,
        &left,
        Dir::UpRight,
    ));
    let down = M::starts_towards(field, &left, Dir::DownLeft).or(M::starts_towards(
        field,
        &left,
        Dir::DownRight,
    ));
    up.or(down)
}

/// A man: it meets the piece on the next square, and lands on the square after it.
pub(crate) struct Stepper;

impl<B: Board> Mover<B> for Stepper {
    ghost as_kind = { Man };

    #[inline(always)]
    fn kind() -> Kind {
        Kind::Man
    }

    #[inline(always)]
    fn met(field: &Field<B>, from: &Square<B>, direction: Dir) -> Option<Square<B>> {
        let met = step(*from, direction)?;
        if field.enemies.has(met) {
            Some(met)
        } else {
            None
        }
    }

    #[inline(always)]
    fn starts_towards(field: &Field<B>, left: &Squares<B>, direction: Dir) -> Squares<B> {
        field
            .open_behind(*left, direction)
            .shifted(direction.opposite())
    }
}

/// A king: it slides to the first piece on its way, and lands on any empty square after it.
pub(crate) struct Slider;

impl<B: Board> Mover<B> for Slider {
    ghost as_kind = { King };

    #[inline(always)]
    fn kind() -> Kind {
        Kind::King
    }

    #[inline(always)]
    fn met(field: &Field<B>, from: &Square<B>, direction: Dir) -> Option<Square<B>> {
        let reached = Squares::one(*from).slid_near(field.occupied, direction);
        reached.shifted(direction).and(field.enemies).first()
    }

    #[inline(always)]
    fn starts_towards(field: &Field<B>, left: &Squares<B>, direction: Dir) -> Squares<B> {
        let back = direction.opposite();
        let next = field.open_behind(*left, direction).shifted(back);
        next.minus(field.occupied).slid(field.occupied, back)
    }
}
