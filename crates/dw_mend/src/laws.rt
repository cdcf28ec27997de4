//! A law of the definitions, the contract of a function that does nothing.
ghost use Rattle.dw_mend.specs.Laws.{OneListOfNeighbours};

/// A position has only one list of neighbours, and all of them are neighbours.
pub fn one_list_of_neighbours()
    ensures { OneListOfNeighbours }
{}
