//! Laws of verdicts and tries, each the contract of a function that does nothing.
ghost use Rattle.dw_verdict.specs.VerdictLaws.{OneVerdict, TriesAreListed};

/// Each problem has a verdict, and only one.
pub fn one_verdict()
    ensures { OneVerdict }
{
    dw_moves::laws::moves_listed();
    dw_moves::laws::moves_in_order();
    dw_moves::laws::moves_have_keys();
    dw_solve::laws::wins_are_decided();
    dw_solve::laws::wins_stay();
    dw_solve::laws::wins_have_lines();
}

/// Each problem has a list of its tries, and only one.
pub fn tries_are_listed()
    ensures { TriesAreListed }
{
    dw_moves::laws::moves_in_order();
    dw_moves::laws::moves_have_keys();
    dw_solve::laws::wins_are_decided();
}
