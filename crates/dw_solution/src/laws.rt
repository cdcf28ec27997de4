//! A law of the definitions, the contract of a function that does nothing.
ghost use Rattle.dw_solution.specs.Laws.{MovetextsAreRead};

/// Reading a movetext again gives the tree of just the lines that are written in it.
pub fn movetexts_are_read()
    ensures { MovetextsAreRead }
{
    dw_notation::laws::written_moves_are_read();
    dw_moves::laws::play_stays();
    dw_moves::laws::legal_moves_take();
    dw_games::laws::pdn_is_read();
}
