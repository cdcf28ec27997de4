//! How long something took, and how fast it was.

use std::io;
use std::time::Instant;

/// Returns the microseconds since a moment.
pub(crate) fn micros_since(rt: &HostRuntime, start: &Instant) -> io::Result<u128> {
    Ok(start.elapsed(rt)?.as_micros())
}

/// Returns the count a second, given a count in a number of microseconds. Less than one counts as one.
pub(crate) fn speed(count: u64, micros: u128) -> u128 {
    u128::from(count) * 1_000_000 / micros.max(1)
}
