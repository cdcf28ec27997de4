//! Answers for composers and editors: the least number of moves with a win, with its verdict, and the comparison of an
//! author's solution with all wins.
//!
//! Begin with `find`, which returns a `Finding`, or with `check`, which returns `Checked`.
#![tactic(auto)]

mod beginning;
mod branch;
pub mod check;
mod fields;
pub mod find;
pub mod finding;
pub mod laws;
mod least;
mod limits;
pub mod remark;
mod remark_texts;
mod remarks;
mod text;
pub mod turns;

pub use fields::{RemarkFields, remark_fields};
pub use finding::{FindBounds, Finding};
pub use remark::{Checked, Remark};
pub use remark_texts::remark_text;
pub use text::found_text;
pub use turns::turns_of;
