//! Laws of findings and of remarks, each the contract of a function that does nothing.
ghost use Rattle.dw_study.specs.Laws.{EndsHaveNumbers, OneFinding, OneListOfRemarks, RemarksHaveTexts, SolutionsHold};

/// Each position has exactly one judged finding, and an undecided one has a lower number of moves.
pub fn one_finding()
    ensures { OneFinding }
{
    dw_solve::laws::wins_are_decided();
    dw_solve::laws::wins_stay();
    dw_verdict::laws::one_verdict();
    dw_verdict::laws::tries_are_listed();
}

/// The tree of a movetext has exactly one list of remarks for each number of moves.
pub fn one_list_of_remarks()
    ensures { OneListOfRemarks }
{
    dw_moves::laws::moves_have_keys();
    dw_solve::laws::wins_stay();
}

/// Each remark has a text: its moves are legal after the beginning that it is on.
pub fn remarks_have_texts()
    ensures { RemarksHaveTexts }
{}

/// Each end on the tree of a movetext says within how many moves the attacker wins from there.
pub fn ends_have_numbers()
    ensures { EndsHaveNumbers }
{
    dw_games::laws::trees_are_played();
    dw_moves::laws::moves_in_order();
    dw_solve::laws::wins_are_decided();
}

/// No move of a solution fails and no path ends too soon exactly if each complete path is a line. There is no remark at
/// all exactly if these are all the lines.
pub fn solutions_hold()
    ensures { SolutionsHold }
{
    dw_games::laws::trees_are_played();
    dw_moves::laws::moves_in_order();
    dw_solve::laws::wins_are_decided();
}
