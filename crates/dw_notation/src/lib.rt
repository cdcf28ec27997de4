//! Texts of draughts: sources and sinks of bytes, the problems and tags of a text, the texts of moves and lines.
//!
//! Everything is generic over the board. `text_in`, `line_text` and `LineText` allocate if a capture takes several
//! pieces, `read_move` for two squares joined by `x`, and `read_tag` for a value.
//!
//! Begin with `Problems`, which reads the problems of a `Source`, and with `move_text::move_text`,
//! `line_text::line_text` and `read_move::read_move`.
#![tactic(auto)]

pub mod bytes;
pub mod laws;
pub mod line_text;
pub mod move_text;
pub mod problems;
pub mod read_move;
pub mod streams;
pub mod tags;
pub mod writes;

pub use line_text::{LINE_ROOM, LineText, MAX_MOVES};
pub use move_text::{MAX_MOVE_TEXT, MOVE_ROOM, text_in};
pub use problems::{
    Form, Numbering, Problem, ProblemFault, Problems, ReadFault, SectionFinder, SectionReader,
};
pub use read_move::MoveFault;
pub use streams::{Buffer, Reading, Sink, Source, Writing};
pub use tags::{Tag, read_tag};
pub use writes::{WriteFault, write_all};
