//! Laws of the definitions, each the contract of a function that does nothing.
ghost use Rattle.dw_solve.specs.Laws.{WinsStay, WinsAreDecided, NoWinInOne, ClosedIsTrue, DecidedAreCounted};
ghost use Rattle.dw_solve.specs.Laws.{SearchesAddUp, WinsHaveLines};

use dw_moves::laws::{moves_listed, sure_replies};

/// A win within some number of moves is one within more, and so is a loss.
pub fn wins_stay()
    ensures { WinsStay }
{}

/// A position has a win within n moves, or it has none.
pub fn wins_are_decided()
    ensures { WinsAreDecided }
{
    moves_listed()
}

/// A position has a line of n moves exactly if it has a win within n moves.
pub fn wins_have_lines()
    ensures { WinsHaveLines }
{
    moves_listed()
}

/// There is no win in one move if the other side always has a reply, and so none if it has a sure one.
pub fn no_win_in_one()
    ensures { NoWinInOne }
{
    sure_replies()
}

/// If each bound of a memo follows from others in one move and its replies, all of them are right.
pub fn closed_is_true()
    ensures { ClosedIsTrue }
{}

/// The count `decided_at` of a memo is the number of positions for which it decides whether there is a win within n
/// moves.
pub fn decided_are_counted()
    ensures { DecidedAreCounted }
{}

/// Searches one after another are one search. If it lost nothing, none of them did.
pub fn searches_add_up()
    ensures { SearchesAddUp }
{}
