//! Whole runs on a board without tokens, and runs whose streams fail.

use crate::rows::{column, word};
use crate::streams::{Chopped, Narrow};
use crate::texts::bytes_of;
use dw_board::Board;
use dw_memo::NoMemo;
use dw_notation::Form;
use dw_report::run::run;
use dw_report::streams::{Reading, Writing};
use dw_report::{Command, Settings};
use dw_solve::AnyOrder;
use std::alloc::Global;
use std::fmt::Write;
use std::str;

/// Adds the report on a text, `TEXT | MOVES LINES FAILING_READ FAILING_WRITE`, and how the run ended. The head has the
/// command. The source gives seven bytes a read, and the sink takes one byte a write.
pub fn whole<B: Board>(alloc: Global, head: &str, query: &str, found: &mut String) -> Option<()> {
    let (text, numbers) = (bytes_of(alloc, column(query, 0))?, column(query, 1));
    let settings = Settings::<B> {
        command: match word(head, 2) {
            "show" => Command::Show,
            "moves" => Command::Moves,
            "judge" => Command::Judge,
            "list" => Command::List,
            _ => return None,
        },
        form: Form::Fens,
        n: word(numbers, 0).parse::<u8>().unwrap_or(1).clamp(1, 20),
        only: None,
        lines: word(numbers, 1).parse::<u64>().unwrap_or(9).max(1),
        after: None,
        limit: 1_000_000,
    };
    let mut source = Reading::new(Chopped {
        rest: text.as_slice(),
        step: 7,
        reads: 0,
        fails_at: word(numbers, 2).parse::<u64>().unwrap_or(0),
        pauses_at: 0,
    });
    let mut sink = Writing::new(Narrow {
        taken: Vec::new(alloc),
        step: 1,
        writes: 0,
        fails_at: word(numbers, 3).parse::<u64>().unwrap_or(0),
    });
    let memo = NoMemo::new();
    let answer = run(
        alloc,
        &mut &mut source,
        &mut &mut sink,
        &settings,
        memo,
        AnyOrder,
    );
    let Narrow { taken, .. } = sink.into_inner();
    found.push_str(str::from_utf8(taken.as_slice()).ok()?).ok()?;
    match answer {
        Ok(summary) => {
            let (read, shown, refused) = (summary.problems, summary.shown, summary.refused);
            write!(found, "{read} {shown} {refused}\n").ok()
        }
        Err(fault) => write!(found, "{fault}\n").ok(),
    }
}
