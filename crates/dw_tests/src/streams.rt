//! Streams in memory that give and take a few bytes at a time, and that fail where they are told to.

use crate::rows::{column, word};
use crate::texts::bytes_of;
use dw_board::{Board, PutFault, fen_text};
use dw_games::GameFault;
use dw_notation::{Form, MoveFault, Problems, ReadFault, Reading};
use std::alloc::Global;
use std::fmt::Write;
use std::{io, str};

/// Gives its bytes a few at a time. At one of its reads, counted from 1, it fails, at another it gives none; it would
/// go on after them.
#[derive(Drop)]
pub struct Chopped<'a> {
    pub rest: &'a [u8],
    pub step: usize,
    pub reads: u64,
    pub fails_at: u64,
    pub pauses_at: u64,
}

impl io::Read for Chopped<'_> {
    fn read(&mut self, buffer: &mut [u8]) -> io::Result<usize> {
        self.reads = self.reads.wrapping_add(1);
        if self.reads == self.fails_at {
            return Err(io::Error::from(io::ErrorKind::Other));
        }
        if self.reads == self.pauses_at {
            return Ok(0);
        }
        let count = self.rest.len().min(self.step).min(buffer.len());
        buffer[..count].copy_from_slice(&self.rest[..count]);
        self.rest = &self.rest[count..];
        Ok(count)
    }
}

/// Takes a few bytes a write, and fails at one of its writes, counted from 1; it would go on after it.
#[derive(Drop)]
pub struct Narrow {
    pub taken: Vec<u8>,
    pub step: usize,
    pub writes: u64,
    pub fails_at: u64,
}

impl io::Write for Narrow {
    fn write(&mut self, piece: &[u8]) -> io::Result<usize> {
        self.writes = self.writes.wrapping_add(1);
        if self.writes == self.fails_at {
            return Err(io::Error::from(io::ErrorKind::Other));
        }
        let count = piece.len().min(self.step);
        self.taken.extend_from_slice(&piece[..count])?;
        Ok(count)
    }

    fn flush(&mut self) -> io::Result<()> {
        Ok(())
    }
}

/// Adds six answers of a reader of problems, `TEXT | STEP FAILS PAUSES`: the bytes of each read, the number of the read
/// that fails, and that of the read that gives nothing.
pub fn problems<B: Board>(
    alloc: Global,
    form: Form,
    query: &str,
    found: &mut String,
) -> Option<()> {
    let (text, numbers) = (bytes_of(alloc, column(query, 0))?, column(query, 1));
    let mut source = Reading::new(Chopped {
        rest: text.as_slice(),
        step: word(numbers, 0).parse::<usize>().ok()?,
        reads: 0,
        fails_at: word(numbers, 1).parse::<u64>().ok()?,
        pauses_at: word(numbers, 2).parse::<u64>().ok()?,
    });
    let mut problems: Problems<'_, B, Reading<Chopped<'_>>> = Problems::new(&mut source, form);
    for _ in 0..6 {
        match problems
            .next()
            .map(|next| next.map(|problem| problem.found))
        {
            Err(ReadFault::Failed) => found.push_str("failed").ok()?,
            Ok(None) => found.push_str("end").ok()?,
            Ok(Some(Ok(position))) => found.push_str(fen_text(&position).as_str()).ok()?,
            Ok(Some(Err(fault))) => write!(found, "{fault}").ok()?,
        }
        found.push_str("; ").ok()?;
    }
    found.push('.').ok()
}

/// Adds the texts of faults that no program writes.
pub fn faults(found: &mut String) -> Option<()> {
    let (taken, last, many) = (PutFault::Taken, PutFault::LastRow, PutFault::TooMany);
    let (memory, read, game) = (MoveFault::Memory, ReadFault::Failed, GameFault::Failed);
    write!(found, "{taken}, {last}, {many}, {memory}, {read}, {game}").ok()
}
