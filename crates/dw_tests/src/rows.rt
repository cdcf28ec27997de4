//! Rows of text: questions and the right answers.
//!
//! A line that begins with `#` is a comment. A line that begins with no blank is the head of a section. The lines below
//! it, which begin with two blanks, are its rows: `ASKED = WANTED`. Lines that begin with two blanks and `> ` continue
//! the right answer of the row above them, each with its line end.

use std::alloc::{AllocError, Global};
use std::fmt::Write;
use std::io::{self, BufRead, BufReader};

/// The room for the answer of a row, in bytes. Answers that fit take no more memory once a tally is there.
const ROOM: usize = 4096;

/// A question, in columns with a `|` between them, and the right answer.
#[derive(Drop)]
pub struct Row {
    pub query: String,
    pub wanted: String,
}

/// Rows that are asked in the same way, which the head tells.
#[derive(Drop)]
pub struct Section {
    pub head: String,
    pub rows: Vec<Row>,
}

/// Returns all sections of standard input.
pub fn input_sections(rt: &HostRuntime) -> io::Result<Vec<Section>> {
    let alloc = rt.alloc();
    let mut sections = Vec::new(alloc);
    for line in BufReader::new(alloc, rt.reader())?.lines(alloc) {
        add_line(alloc, &mut sections, line?.as_str())?;
    }
    Ok(sections)
}

/// Adds a line: a head, or a row of the last section.
fn add_line(alloc: Global, sections: &mut Vec<Section>, line: &str) -> Result<(), AllocError> {
    if line.is_empty() || line.starts_with('#') {
        return Ok(());
    }
    if let (Some(text), Some(section)) = (line.strip_prefix("  "), sections.last_mut()) {
        return add_row(alloc, &mut section.rows, text);
    }
    let head = String::from_str(alloc, line)?;
    let rows = Vec::new(alloc);
    sections.push(Section { head, rows })?;
    Ok(())
}

/// Adds a row, or goes on with the last one.
fn add_row(alloc: Global, rows: &mut Vec<Row>, text: &str) -> Result<(), AllocError> {
    if let (Some(more), Some(row)) = (text.strip_prefix("> "), rows.last_mut()) {
        row.wanted.push_str(more)?;
        return row.wanted.push('\n');
    }
    let (query, wanted) = text.split_once(" = ").unwrap_or((text, ""));
    let query = String::from_str(alloc, query)?;
    let wanted = String::from_str(alloc, wanted)?;
    rows.push(Row { query, wanted })?;
    Ok(())
}

/// Returns the column of this place, counted from 0, without the blanks around it; nothing if there is none.
pub fn column(text: &str, place: usize) -> &str {
    text.split('|').nth(place).unwrap_or("").trim()
}

/// Returns the word of this place, counted from 0; nothing if there is none.
pub fn word(text: &str, place: usize) -> &str {
    text.split_whitespace().nth(place).unwrap_or("")
}

/// How many rows of a section were right, and the answers of the others.
#[derive(Drop)]
pub struct Tally {
    /// The answer to the present row.
    pub found: String,
    /// The number of rows, and of what could not be asked.
    pub asked: u32,
    right: u32,
    wrong: String,
}

impl Tally {
    pub fn new(alloc: Global) -> Result<Tally, AllocError> {
        Ok(Tally {
            found: String::with_capacity(alloc, ROOM)?,
            asked: 0,
            right: 0,
            wrong: String::new(alloc),
        })
    }

    /// Ends a row: it is right if it could be answered, and its answer is the wanted one.
    pub fn end(&mut self, row: &Row, answered: Option<()>) {
        self.asked = self.asked.wrapping_add(1);
        if answered.is_some() && self.found.as_str() == row.wanted.as_str() {
            self.right = self.right.wrapping_add(1);
        } else {
            let (query, found) = (row.query.as_str(), self.found.as_str());
            let _ = write!(self.wrong, "wrong: {query}\n  found: {found}\n");
        }
        self.found.clear();
    }

    /// Writes the answer of each wrong row, and whether all rows were right. A section without rows is not.
    pub fn report(&self, rt: &impl Print, head: &str) -> io::Result<()> {
        let (wrong, right, asked) = (self.wrong.as_str(), self.right, self.asked);
        let is_all = if asked > 0 && right == asked {
            "all"
        } else {
            "not all"
        };
        println!(rt; "{wrong}{head}: {is_all} right")
    }
}
