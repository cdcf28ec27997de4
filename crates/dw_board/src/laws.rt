//! Laws of the definitions, as contracts of functions with empty bodies, and the meaning of `==`.
ghost use Rattle.dw_board.specs.FenLaws.{ReadingIsGrammar, FaultIsGrammar, WrittenIsFen, WrittenIsRead, NamesOne};
ghost use Rattle.dw_board.specs.FenLaws.{EitherFenOrFaulty, NoneGoesOn, NoneBefore};
ghost use Rattle.std.specs.Prelude.{◌≡◌, ◌↔◌, IsTrue};
ghost use Rattle.dw_board.specs.Laws.{StepsAreDiagonal, StepsStay, PlacesDiffer, ShiftsStep};

use crate::board::Board;
use crate::position::Position;
use crate::squares::Squares;

/// A step leads to the square whose row and column are both one further in its direction, and to no other.
pub fn steps_are_diagonal()
    ensures steps { StepsAreDiagonal }
    ensures stay { StepsStay }
{}

/// Different squares have different rows or columns.
pub fn places_differ()
    ensures { PlacesDiffer }
{}

/// A step from a square leads to another exactly if it shifts the bit of the one to the bit of the other.
pub fn shifts_step()
    ensures { ShiftsStep }
{}

/// Equal positions have the same pieces on the same squares, and the same side to move.
pub fn same_position<B: Board>(a: &Position<B>, b: &Position<B>) -> bool
    ensures { IsTrue result ↔ (a.now ≡ b.now) }
{
    a == b
}

/// Equal sets have the same squares.
pub fn same_squares<B: Board>(one: Squares<B>, other: Squares<B>) -> bool
    ensures { IsTrue result ↔ (one ≡ other) }
{
    one == other
}

/// Reading a text gives a position exactly if the grammar of FEN texts gives it. It gives a fault exactly if this is
/// the text's earliest one by the grammar.
pub fn reading_is_grammar()
    ensures position { ReadingIsGrammar }
    ensures fault { FaultIsGrammar }
{}

/// The text written for a position names that position in the grammar, and so reading it gives the position again.
pub fn written_is_read()
    ensures fen { WrittenIsFen }
    ensures read { WrittenIsRead }
{}

/// A text names at most one position.
pub fn names_one()
    ensures { NamesOne }
{}

/// A text either names a position or has an earliest fault, never both.
pub fn either_fen_or_faulty()
    ensures { EitherFenOrFaulty }
{}

/// At its earliest fault a text of at most `MAX_FEN` bytes ends too soon, or its tokens up to and with the fault begin
/// no FEN text. Cut off before that fault, the text has no fault except at its end.
pub fn none_goes_on()
    ensures behind { NoneGoesOn }
    ensures before { NoneBefore }
{}
