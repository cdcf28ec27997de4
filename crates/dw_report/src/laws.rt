//! Laws of the report, each the contract of a function that does nothing.
ghost use Rattle.dw_report.specs.Laws.{OneReport};

pub use dw_verdict::laws::{one_verdict, tries_are_listed};

/// Each byte text has exactly one report, if at least one line may be listed.
pub fn one_report()
    ensures { OneReport }
{
    dw_moves::laws::moves_in_order();
    dw_moves::laws::moves_have_keys();
    dw_moves::laws::one_best();
    one_verdict();
    tries_are_listed();
    dw_list::laws::lines_exist();
    dw_list::laws::line_or_place();
    dw_notation::laws::moves_have_texts();
    dw_notation::laws::lines_have_texts();
    dw_notation::laws::texts_have_problems();
}
