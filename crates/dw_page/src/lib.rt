//! Pages of problems: the drawing of a position, texts of the input, and the words of a page in four languages.
//!
//! Everything about positions is generic over the board. Each call appends to a text, which allocates.
//!
//! Begin with `diagram::push_diagram`, which draws a position, and with `escape::push_bytes`, which writes input bytes.
#![tactic(auto)]

pub mod diagram;
pub mod escape;
pub mod laws;
mod moves;
pub mod page;
mod pictures;
mod script;
mod style;
pub mod words;

pub use page::{
    Heading, Look, Solution, Task, push_end, push_end_of_problem, push_head, push_problem,
    push_refused, push_solution, push_solutions_heading,
};
pub use words::{Language, Phrase};
