//! A law of the definitions, the contract of a function that does nothing.
ghost use Rattle.dw_first_moves.specs.Laws.{OneEffect};

/// Each legal move has one effect.
pub fn one_effect()
    ensures { OneEffect }
{
    dw_moves::laws::moves_in_order();
    dw_moves::laws::moves_have_keys();
    dw_solve::laws::wins_are_decided();
    dw_solve::laws::wins_stay();
}
