//! All positions that one change makes of a position.
ghost use Rattle.std.specs.Prelude.{◌≡◌, ◌++◌, ◌∷◌, [], ℕ, IfOk, OnOk, map};
ghost use Rattle.std.specs.List.{flat_map};
ghost use Rattle.dw_board.specs.declared.piece.Kind.TheVariants.{Man, King};
ghost use Rattle.dw_mend.specs.Changes.{AreNeighbours, AreMade, all_squares, changes, pieces};
ghost use Rattle.dw_mend.specs.Changes.{without, with_piece, set, made};
ghost use Rattle.dw_mend.specs.Telling.{told, told_by};

use crate::change::{Change, changed};
use dw_board::{Board, Kind, Piece, Position, Side, Square};
use std::alloc::{AllocError, Global};

/// A position that a change makes, with that change.
#[derive(Clone, Copy)]
pub struct Neighbour<B: Board> {
    pub change: Change<B>,
    pub position: Position<B>,
}

/// The pieces that can be put on a square, in order.
const PIECES: [Piece; 4] = [
    Piece {
        side: Side::White,
        kind: Kind::Man,
    },
    Piece {
        side: Side::White,
        kind: Kind::King,
    },
    Piece {
        side: Side::Black,
        kind: Kind::Man,
    },
    Piece {
        side: Side::Black,
        kind: Kind::King,
    },
];

/// Lists all neighbours of a position, in order: first those without one of its pieces, by their squares; then those
/// with one more piece, by its square, on each a white man, a white king, a black man and a black king; then those with
/// a piece on another square, by both squares; then those where a man became a king or a king a man.
pub fn neighbours<B: Board>(
    alloc: Global,
    position: &Position<B>,
) -> Result<Vec<Neighbour<B>>, AllocError>
    ensures { IfOk result (λ all. AreNeighbours B.geometry position.now (map told_by all.items)) }
{
    let changes = all_changes::<B>(alloc)?;
    made_by(alloc, position, changes.as_slice())
}

/// Lists the neighbours that these changes make, in their order.
fn made_by<B: Board>(
    alloc: Global,
    position: &Position<B>,
    changes: &[Change<B>],
) -> Result<Vec<Neighbour<B>>, AllocError>
    ensures { IfOk result (λ all. AreMade B.geometry position.now (map told changes.now) (map told_by all.items)) }
{
    let mut all = Vec::new(alloc);
    'changes: for change in changes {
        if let Some(made) = changed(position, *change) {
            all.push(Neighbour {
                change: *change,
                position: made,
            })?;
        }
    }
    Ok(all)
}

/// Lists all changes, in order.
fn all_changes<B: Board>(alloc: Global) -> Result<Vec<Change<B>>, AllocError>
    ensures { IfOk result (λ list. map told list.items ≡ changes B.geometry) }
{
    let squares = squares::<B>(alloc)?;
    let mut list = Vec::new(alloc);
    push_without(&mut list, squares.as_slice())?;
    push_with(&mut list, squares.as_slice())?;
    push_set(&mut list, squares.as_slice())?;
    push_made(&mut list, squares.as_slice())?;
    Ok(list)
}

/// Lists the squares of the board, ascending.
fn squares<B: Board>(alloc: Global) -> Result<Vec<Square<B>>, AllocError>
    ensures { IfOk result (λ squares. squares.items ≡ all_squares B.geometry) }
{
    let mut squares = Vec::new(alloc);
    'squares: for behind in 0..B::ROWS * B::PER_ROW {
        if let Some(square) = Square::new(behind + 1) {
            squares.push(square)?;
        }
    }
    Ok(squares)
}

/// Appends the changes that take the piece on one of these squares away.
fn push_without<B: Board>(
    list: &mut Vec<Change<B>>,
    squares: &[Square<B>],
) -> Result<(), AllocError>
    ensures { OnOk result (map told list.new.items ≡ map told list.old.items ++ map without squares.now) }
{
    'squares: for square in squares {
        list.push(Change::Without { square: *square })?;
    }
    Ok(())
}

/// Appends the changes that put a piece on one of these squares.
fn push_with<B: Board>(list: &mut Vec<Change<B>>, squares: &[Square<B>]) -> Result<(), AllocError>
    ensures { OnOk result (map told list.new.items
        ≡ map told list.old.items ++ flat_map (λ s. map (with_piece s) pieces) squares.now) }
{
    'squares: for square in squares {
        push_pieces(list, *square)?;
    }
    Ok(())
}

/// Appends the changes that put a piece on this square.
fn push_pieces<B: Board>(list: &mut Vec<Change<B>>, square: Square<B>) -> Result<(), AllocError>
    ensures { OnOk result (map told list.new.items ≡ map told list.old.items ++ map (with_piece square) pieces) }
{
    let [white_man, white_king, black_man, black_king] = PIECES;
    list.push(Change::With {
        square,
        piece: white_man,
    })?;
    list.push(Change::With {
        square,
        piece: white_king,
    })?;
    list.push(Change::With {
        square,
        piece: black_man,
    })?;
    list.push(Change::With {
        square,
        piece: black_king,
    })?;
    Ok(())
}

/// Appends the changes that set a piece from one of these squares on another.
fn push_set<B: Board>(list: &mut Vec<Change<B>>, squares: &[Square<B>]) -> Result<(), AllocError>
    ensures { OnOk result (map told list.new.items
        ≡ map told list.old.items ++ flat_map (λ s. map (set s) squares.now) squares.now) }
{
    'squares: for square in squares {
        push_set_from(list, *square, squares)?;
    }
    Ok(())
}

/// Appends the changes that set a piece from this square on one of these.
fn push_set_from<B: Board>(
    list: &mut Vec<Change<B>>,
    from: Square<B>,
    squares: &[Square<B>],
) -> Result<(), AllocError>
    ensures { OnOk result (map told list.new.items ≡ map told list.old.items ++ map (set from) squares.now) }
{
    'squares: for to in squares {
        list.push(Change::Set { from, to: *to })?;
    }
    Ok(())
}

/// Appends the changes that make a king or a man of the piece on one of these squares.
fn push_made<B: Board>(list: &mut Vec<Change<B>>, squares: &[Square<B>]) -> Result<(), AllocError>
    ensures { OnOk result (map told list.new.items
        ≡ map told list.old.items ++ flat_map (λ s. made s King ∷ made s Man ∷ []) squares.now) }
{
    'squares: for square in squares {
        push_kinds(list, *square)?;
    }
    Ok(())
}

/// Appends the changes that make a king or a man of the piece on this square.
fn push_kinds<B: Board>(list: &mut Vec<Change<B>>, square: Square<B>) -> Result<(), AllocError>
    ensures { OnOk result (map told list.new.items
        ≡ map told list.old.items ++ made square King ∷ made square Man ∷ []) }
{
    list.push(Change::Made {
        square,
        kind: Kind::King,
    })?;
    list.push(Change::Made {
        square,
        kind: Kind::Man,
    })?;
    Ok(())
}
