//! A part of a list, so that several processors or machines can share the work on it.
//!
//! Begin with `part_of`, which takes a `Part` of a list. All parts of a list together are the whole list.
#![tactic(auto)]

ghost use Rattle.std.specs.Prelude.{◌≡◌, ◌≤◌, IfOk};
ghost use Rattle.dw_parts.specs.Parts.{part_of};

pub mod laws;

use std::alloc::{AllocError, Global};

/// A part of a list: the items whose place, counted from 1, leaves the same remainder as `number` when it is divided by
/// `parts`.
#[derive(Clone, Copy, Debug, PartialEq, Eq)]
pub struct Part {
    /// The number of the part, from 1 on.
    pub number: u32,
    /// The number of parts, at least 1.
    pub parts: u32,
    pub ghost some: { 1 ≤ parts },
}

/// Returns the items of a part of a list, in their order, or an error if out of memory.
pub fn part_of<T: Copy>(alloc: Global, all: &[T], part: Part) -> Result<Vec<T>, AllocError>
    ensures { IfOk result (λ some. some.items ≡ part_of part.number part.parts all.now) }
{
    let mut some = Vec::new(alloc);
    'all: for (place, item) in all.iter().enumerate() {
        if (place as u64 + 1) % u64::from(part.parts) == u64::from(part.number % part.parts) {
            some.push(*item)?;
        }
    }
    Ok(some)
}
