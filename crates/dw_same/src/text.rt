//! The texts of repeated problems, in words or as rows of JSON.
ghost use Rattle.std.specs.Prelude.{◌≡◌, IfOk};
ghost use Rattle.std.specs.Prelude.{◌++◌, codes, decimal, false, true};
ghost use Rattle.std.specs.String.{string_bytes};
ghost use Rattle.dw_same.specs.RepeatText as of;

use crate::index::Repeat;
use dw_board::{Board, Position, fen_text};
use dw_json::{begin_row, end_row, put_number, put_text};
use itoa::Buffer;
use std::alloc::{AllocError, Global};

/// Makes the text of a problem that repeats an earlier one: a line, or a row of JSON.
pub fn repeat_text<B: Board>(
    alloc: Global,
    json: bool,
    problem: u32,
    position: &Position<B>,
    repeat: Repeat,
) -> Result<String, AllocError>
    ensures { IfOk result (λ text. string_bytes text
        ≡ of.repeat_text B.geometry json problem position.now repeat) }
{
    if json {
        repeat_row(alloc, problem, position, repeat)
    } else {
        repeat_line(alloc, problem, position, repeat)
    }
}

/// Makes the last text: how many of how many positions repeat an earlier problem.
pub fn count_text(
    alloc: Global,
    json: bool,
    repeats: u32,
    positions: u32,
) -> Result<String, AllocError>
    ensures { IfOk result (λ text. string_bytes text ≡ of.count_text json repeats positions) }
{
    if json {
        count_row(alloc, repeats, positions)
    } else {
        count_line(alloc, repeats, positions)
    }
}

fn repeat_line<B: Board>(
    alloc: Global,
    problem: u32,
    position: &Position<B>,
    repeat: Repeat,
) -> Result<String, AllocError>
    ensures { IfOk result (λ line. string_bytes line ≡ of.repeat_line B.geometry problem position.now repeat) }
{
    let mut number = Buffer::new();
    let mut first = Buffer::new();
    let fen = fen_text(position);
    [
        "problem ",
        number.format(problem),
        ": ",
        fen.as_str(),
        words(repeat),
        first.format(repeated(repeat)),
        "\n",
    ]
    .concat(alloc)
}

fn repeat_row<B: Board>(
    alloc: Global,
    problem: u32,
    position: &Position<B>,
    repeat: Repeat,
) -> Result<String, AllocError>
    ensures { IfOk result (λ row. string_bytes row ≡ of.repeat_row B.geometry problem position.now repeat) }
{
    let mut row = begin_row(alloc)?;
    put_number(&mut row, "problem", problem.into())?;
    put_text(&mut row, "fen", fen_text(position).as_str())?;
    put_number(&mut row, name(repeat), repeated(repeat).into())?;
    end_row(row)
}

fn count_line(alloc: Global, repeats: u32, positions: u32) -> Result<String, AllocError>
    ensures { IfOk result (λ line. string_bytes line ≡ of.count_text false repeats positions) }
{
    let mut repeated = Buffer::new();
    let mut all = Buffer::new();
    [
        repeated.format(repeats),
        " of ",
        all.format(positions),
        " repeated\n",
    ]
    .concat(alloc)
}

fn count_row(alloc: Global, repeats: u32, positions: u32) -> Result<String, AllocError>
    ensures { IfOk result (λ row. string_bytes row ≡ of.count_text true repeats positions) }
{
    let mut row = begin_row(alloc)?;
    put_number(&mut row, "repeated", repeats.into())?;
    put_number(&mut row, "of", positions.into())?;
    end_row(row)
}

/// Returns the number of the problem that is repeated.
fn repeated(repeat: Repeat) -> u32
    ensures { result ≡ of.repeated repeat }
{
    match repeat {
        Repeat::Same(number) | Repeat::Turned(number) => number,
    }
}

/// Returns the words before that number.
fn words(repeat: Repeat) -> &'static str
    ensures { result.now ≡ of.words repeat }
{
    match repeat {
        Repeat::Same(_) => " same as ",
        Repeat::Turned(_) => " turned ",
    }
}

/// Returns the name of the member with that number.
fn name(repeat: Repeat) -> &'static str
    ensures { result.now ≡ of.name repeat }
{
    match repeat {
        Repeat::Same(_) => "same_as",
        Repeat::Turned(_) => "turned",
    }
}
