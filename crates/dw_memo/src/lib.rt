//! Memos: caches of the numbers of moves in which the side to move wins or does not win.
//!
//! Callers use the trait `Memo` and its clauses only: a memo may lose entries, and counts them. Begin with `Memo` and
//! `Bounds`. `NoMemo`, `LruMemo`, `SlotMemo` and `DeepMemo` are memos, and `AnyMemo` is one of them.
#![tactic(auto)]

pub mod any_memo;
pub mod bounds;
mod bucket;
pub mod deep_memo;
mod fact;
mod growing;
pub mod lru_memo;
pub mod memo;
pub mod no_memo;
mod pair;
mod slot;
pub mod slot_memo;
mod table;

pub use any_memo::AnyMemo;
pub use bounds::Bounds;
pub use deep_memo::DeepMemo;
pub use lru_memo::LruMemo;
pub use memo::{Memo, Noted};
pub use no_memo::NoMemo;
pub use slot_memo::SlotMemo;
