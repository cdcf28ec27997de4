//! Rows of JSON: objects, each in a line of its own.
//!
//! Begin with `begin_row`, write the members by the functions whose names begin with `put`, and take the line from
//! `end_row`. An array of objects is written by `put_objects`, which asks a `PutObject` for the members of each.
#![tactic(auto)]

pub mod objects;
pub mod row;

pub use objects::{PutObject, put_objects};
pub use row::{
    begin_row, end_row, put_counts, put_flag, put_number, put_pairs, put_text, put_texts,
};
