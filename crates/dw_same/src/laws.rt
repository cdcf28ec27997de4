//! Laws of the definitions, as contracts of functions that do nothing.
ghost use Rattle.dw_same.specs.Laws.{SameIsEquivalence, TurnedDiffers, TurnedSquares, TurnedTwice};

/// A position that is turned twice is itself again, square by square; turned once it is another one.
pub fn turned_twice()
    ensures squares { TurnedSquares }
    ensures twice { TurnedTwice }
    ensures differs { TurnedDiffers }
{}

/// A position is the same as itself; what it is the same as is the same as it; and what is the same as a third is the
/// same as all that the third is the same as.
pub fn same_is_equivalence()
    ensures { SameIsEquivalence }
{}
