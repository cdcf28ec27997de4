//! Changes to one piece of a position.
ghost use Rattle.std.specs.Prelude.{◌≡◌, ◌↔◌, IsTrue, MatchOption};
ghost use Rattle.dw_board.specs.Placement.{Placement, IsPosition};
ghost use Rattle.dw_mend.specs.Changes.{IsNeighbour, without, with_piece, set, made};
ghost use Rattle.dw_mend.specs.Telling.{told};

use dw_board::{Board, Kind, Piece, Position, Square};

/// A change to one piece of a position.
#[derive(Clone, Copy)]
pub enum Change<B: Board> {
    /// The piece on a square is taken away.
    Without {
        /// Where it stands.
        square: Square<B>,
    },
    /// A piece is put on an empty square.
    With {
        /// The square for the piece.
        square: Square<B>,
        /// The piece.
        piece: Piece,
    },
    /// A piece is set from its square on an empty one.
    Set {
        /// Where it stands.
        from: Square<B>,
        /// Where it comes to stand.
        to: Square<B>,
    },
    /// A man becomes a king, or a king a man.
    Made {
        /// Where it stands.
        square: Square<B>,
        /// The kind of piece that it becomes.
        kind: Kind,
    },
}

/// Makes a change in a position. It returns `None` if the change is impossible there, or if the result is no position:
/// a man on its last row, or a side with too many pieces.
pub fn changed<B: Board>(position: &Position<B>, change: Change<B>) -> Option<Position<B>>
    ensures { MatchOption result ((q : Placement) → IsNeighbour B.geometry position.now (told change) q → ⊥)
        (λ q. IsNeighbour B.geometry position.now (told change) q) }
{
    match change {
        Change::Without { square } => without(position, square),
        Change::With { square, piece } => with(position, square, piece),
        Change::Set { from, to } => set(position, from, to),
        Change::Made { square, kind } => made(position, square, kind),
    }
}

/// Returns the position without the piece on a square, if a piece stands there.
fn without<B: Board>(position: &Position<B>, square: Square<B>) -> Option<Position<B>>
    ensures { MatchOption result ((q : Placement) → IsNeighbour B.geometry position.now (without square) q → ⊥)
        (λ q. IsNeighbour B.geometry position.now (without square) q) }
{
    let mut after = *position;
    after.clear(square)?;
    after.keeps_its_rules();
    Some(after)
}

/// Returns the position with one more piece, on a square that is empty.
fn with<B: Board>(position: &Position<B>, square: Square<B>, piece: Piece) -> Option<Position<B>>
    ensures { MatchOption result ((q : Placement) → IsNeighbour B.geometry position.now (with_piece square piece) q → ⊥)
        (λ q. IsNeighbour B.geometry position.now (with_piece square piece) q) }
{
    if position.at(square).is_some() {
        return None;
    }
    position.keeps_its_rules();
    let mut after = *position;
    match after.put(square, piece) {
        Ok(()) => {
            after.keeps_its_rules();
            Some(after)
        }
        Err(_) => None,
    }
}

/// Returns the position with a piece set on another square, if there is one and that square is empty.
fn set<B: Board>(position: &Position<B>, from: Square<B>, to: Square<B>) -> Option<Position<B>>
    ensures { MatchOption result ((q : Placement) → IsNeighbour B.geometry position.now (set from to) q → ⊥)
        (λ q. IsNeighbour B.geometry position.now (set from to) q) }
{
    if position.at(to).is_some() {
        return None;
    }
    let piece = position.at(from)?;
    position.keeps_its_rules();
    let mut after = *position;
    after.clear(from);
    with(&after, to, piece)
}

/// Returns the position with a piece turned into the other kind, if a piece of another kind than `kind` stands there.
fn made<B: Board>(position: &Position<B>, square: Square<B>, kind: Kind) -> Option<Position<B>>
    ensures { MatchOption result ((q : Placement) → IsNeighbour B.geometry position.now (made square kind) q → ⊥)
        (λ q. IsNeighbour B.geometry position.now (made square kind) q) }
{
    let piece = position.at(square)?;
    if is_same(piece.kind, kind) {
        return None;
    }
    position.keeps_its_rules();
    let mut after = *position;
    after.clear(square);
    let side = piece.side;
    with(&after, square, Piece { side, kind })
}

/// Returns whether two kinds are the same.
fn is_same(one: Kind, other: Kind) -> bool
    ensures { IsTrue result ↔ (one ≡ other) }
{
    one == other
}
