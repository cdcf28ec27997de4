//! The entries of a cache: which are found again, which are lost, and how the lost ones are counted.
ghost use Rattle.std.specs.Prelude.{◌≡◌, [], IfSome};
ghost use Rattle.dw_memo.specs.Choice.{content_of};

use crate::rows::{Row, Section, Tally, word};
use crate::searches::{ByEnd, ask_solver};
use crate::texts::read_position;
use dw_board::Board;
use dw_memo::{AnyMemo, Bounds, DeepMemo, LruMemo, Memo, NoMemo, Noted, SlotMemo};
use dw_solve::{AnyOrder, ByTrial};
use std::alloc::Global;
use std::fmt::Write;

/// Asks the rows of a section with each cache and each order of moves that its head names. A cache that was refused
/// memory is made again.
pub fn ask_each<B: Board>(alloc: Global, section: &Section, tally: &mut Tally) {
    let (head, rows) = (section.head.as_str(), section.rows.as_slice());
    for memo in word(head, 2).split(',') {
        for guide in word(head, 3).split(',') {
            let made = match new_memo::<B>(alloc, memo) {
                Some(made) => Some(made),
                None => new_memo(alloc, memo),
            };
            match (made, guide) {
                (Some(memo), "any") => ask_solver(alloc, head, memo, AnyOrder, rows, tally),
                (Some(memo), "end") => ask_solver(alloc, head, memo, ByEnd, rows, tally),
                (Some(memo), "trial") => ask_solver(alloc, head, memo, ByTrial, rows, tally),
                (Some(memo), "") => ask_memo(word(head, 0), memo, rows, tally),
                _ => tally.asked = tally.asked.wrapping_add(1),
            }
        }
    }
}

/// Returns a new cache, `none`, `lru:SIZE`, `slots:SIZE` or `deep:SIZE`.
fn new_memo<B: Board>(alloc: Global, text: &str) -> Option<AnyMemo<B>>
    ensures { IfSome result (λ m. content_of m ≡ []) }
{
    let (name, size) = text.split_once(':').unwrap_or((text, "1"));
    let size = size.parse::<usize>().ok()?.clamp(1, 4_000_000);
    match name {
        "none" => Some(AnyMemo::None(NoMemo::new())),
        "lru" => Some(AnyMemo::Lru(LruMemo::new(alloc, size).ok()?)),
        "slots" => Some(AnyMemo::Slots(SlotMemo::new(alloc, size).ok()?)),
        "deep" => Some(AnyMemo::Deep(DeepMemo::new(alloc, size).ok()?)),
        _ => None,
    }
}

/// Asks all rows of one cache.
fn ask_memo<B: Board>(kind: &str, mut memo: AnyMemo<B>, rows: &[Row], tally: &mut Tally) {
    for (place, row) in rows.iter().enumerate() {
        let (query, found) = (row.query.as_str(), &mut tally.found);
        let answered = match kind {
            "notes" | "refused-notes" => note(&mut memo, query, found),
            "crowded" => crowd(&mut memo, &rows[..place + 1], query, found),
            _ => None,
        };
        tally.end(row, answered);
    }
}

/// Returns bounds, `FAILS WINS`: the greatest number of moves that fails and the least that wins, `-` for none.
fn bounds_of(fails: &str, wins: &str) -> Bounds {
    Bounds {
        fails: fails.parse::<u8>().ok(),
        wins: wins.parse::<u8>().ok(),
    }
}

/// Adds the answer of a cache when it notes bounds, the bounds that it finds for a position, or the number of lost
/// entries. `keep` notes bounds, and then they are held just if the note says so, and else they alone are lost.
fn note<B: Board>(memo: &mut AnyMemo<B>, query: &str, found: &mut String) -> Option<()> {
    let before = memo.dropped();
    if query == "lost" {
        return write!(found, "{before}").ok();
    }
    let position = read_position::<B>(word(query, 1))?;
    let bounds = bounds_of(word(query, 2), word(query, 3));
    if word(query, 0) == "look" {
        let held = memo.look(&position).map(|held| (held.fails, held.wins));
        return write!(found, "{held:?}").ok();
    }
    let noted = memo.note(position, bounds);
    if word(query, 0) == "note" {
        return write!(found, "{noted:?}").ok();
    }
    let is_held = memo.look(&position) == Some(bounds);
    let lost = memo.dropped().wrapping_sub(before);
    let is_right = is_held == (noted == Noted::Kept) && lost == u64::from(!is_held);
    write!(found, "{is_right}").ok()
}

/// Notes the position of a row, the last of those that were noted, in a cache that is too small for them. It is kept,
/// at most one other is lost then, and that is counted. There is room for seven.
fn crowd<B: Board>(
    memo: &mut AnyMemo<B>,
    noted: &[Row],
    query: &str,
    found: &mut String,
) -> Option<()> {
    let position = read_position::<B>(word(query, 0))?;
    let bounds = bounds_of(word(query, 1), "-");
    let before = memo.dropped();
    let is_kept = memo.note(position, bounds) == Noted::Kept
        && memo.look(&position) == Some(bounds);
    let lost = memo.dropped();
    let mut held = 0_u64;
    for row in noted {
        let query = row.query.as_str();
        let bounds = memo.look(&read_position(word(query, 0))?);
        let is_right = bounds == Some(bounds_of(word(query, 1), "-"));
        held = held.wrapping_add(u64::from(is_right));
        if bounds.is_some() && !is_right {
            return None;
        }
    }
    let is_counted = held.wrapping_add(lost) == noted.len() as u64;
    let is_right = is_kept && is_counted && held <= 7 && lost.wrapping_sub(before) <= 1;
    write!(found, "{is_right}").ok()
}
