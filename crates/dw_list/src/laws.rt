//! Laws of lines, each the contract of a function that does nothing.
ghost use Rattle.dw_list.specs.Laws.{NoneBegins, LinesExist, LineOrPlace, LinesInTurn};

pub mod tokens;

/// No line begins another.
pub fn none_begins()
    ensures { NoneBegins }
{}

/// The lines of a position can be listed in ascending order, in one way, and there are none exactly if there is no win.
pub fn lines_exist()
    ensures { LinesExist }
{
    dw_moves::laws::moves_listed();
    dw_moves::laws::moves_in_order();
    dw_moves::laws::moves_have_keys();
    dw_solve::laws::wins_are_decided();
}

/// A list of moves is a line or has a place at which it leaves all lines, never both, and it has one place only.
pub fn line_or_place()
    ensures { LineOrPlace }
{
    dw_moves::laws::moves_listed();
    dw_solve::laws::wins_are_decided();
}

/// Lines that a lister gives in two turns come one after another. A turn that gives none leaves the lines still to
/// come.
pub fn lines_in_turn()
    ensures { LinesInTurn }
{}
