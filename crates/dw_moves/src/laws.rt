//! Laws of the definitions, each the contract of a function that does nothing.
ghost use Rattle.dw_moves.specs.WorkedPositions.{WorkedPositions};
ghost use Rattle.dw_moves.specs.Laws.{PathTells, PathIsShort, MovesListed, OneBest, LegalMovesTake, PlayStays};
ghost use Rattle.dw_moves.specs.Laws.{MovesHaveKeys, MovesInOrder, StepsAreQuiet, SureReplies};

/// The landing squares of a path determine the pieces that it takes.
pub fn path_tells()
    ensures { PathTells }
{}

/// A path takes at most all pieces of the other side.
pub fn path_is_short()
    ensures { PathIsShort }
{}

/// Some list has exactly the legal moves of a position.
pub fn moves_listed()
    ensures { MovesListed }
{}

/// There is a greatest number of pieces that can be taken, and only one.
pub fn one_best()
    ensures { OneBest }
{}

/// A legal move takes the greatest number of pieces, at most 20. Its paths land once for each of them, on squares of
/// the board.
pub fn legal_moves_take()
    ensures { LegalMovesTake }
{}

/// A legal move leads from a position to a position.
pub fn play_stays()
    ensures { PlayStays }
{}

/// Each legal move has a key, and only one; different moves have different keys.
pub fn moves_have_keys()
    ensures { MovesHaveKeys }
{}

/// The legal moves can be listed in ascending order, in one way, and each with its least path.
pub fn moves_in_order()
    ensures { MovesInOrder }
{}

/// A step of one square is a quiet move.
pub fn steps_are_quiet()
    ensures { StepsAreQuiet }
{}

/// If the other side has a sure reply, it has a reply to every move.
pub fn sure_replies()
    ensures { SureReplies }
{}

/// The worked positions have exactly the legal moves listed with them.
pub fn worked_positions()
    ensures { WorkedPositions }
{}
