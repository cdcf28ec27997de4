//! The line at a terminal that shows how far a search is.
use dw_solve::Watcher;
use std::time::{Duration, Instant};

/// How many milliseconds a search takes before the line is shown.
const PATIENCE: u64 = 500;

/// How many milliseconds the line stays as it is.
const PAUSE: u64 = 100;

/// Shows how far the search for one problem is, in a line on standard error. Each new line replaces the one before.
#[derive(Drop)]
pub(crate) struct Progress<'a> {
    rt: &'a HostRuntime,
    /// Whether the line may be shown at all.
    is_shown: bool,
    /// The problem that is searched.
    problem: u32,
    /// The start of its search, if it is to be shown.
    started: Option<Instant>,
    /// How many positions were expanded before.
    before: u64,
    /// The time of the last write, if the line is visible.
    written: Option<Instant>,
}

impl<'a> Progress<'a> {
    /// Returns a line that is not yet visible. It never becomes so unless `is_shown`.
    pub(crate) fn new(rt: &'a HostRuntime, is_shown: bool) -> Progress<'a> {
        Progress {
            rt,
            is_shown,
            problem: 0,
            started: None,
            before: 0,
            written: None,
        }
    }

    /// Returns whether the line may be written now.
    fn is_due(&self) -> bool {
        let Some(started) = self.started else {
            return false;
        };
        self.has_passed(&started, PATIENCE)
            && match self.written {
                None => true,
                Some(written) => self.has_passed(&written, PAUSE),
            }
    }

    /// Returns whether `millis` milliseconds have passed since a moment.
    fn has_passed(&self, since: &Instant, millis: u64) -> bool {
        match since.elapsed(self.rt) {
            Ok(passed) => passed >= Duration::from_millis(millis),
            Err(_) => false,
        }
    }
}

impl Watcher for Progress<'_> {
    /// Notes that the search for a problem begins. Without a clock its progress is not shown.
    fn begin(&mut self, problem: u32, expanded: u64) {
        self.problem = problem;
        self.before = expanded;
        self.started = if self.is_shown {
            Instant::now(self.rt).ok()
        } else {
            None
        };
    }

    fn watch(&mut self, moves: u8, expanded: u64) {
        if !self.is_due() {
            return;
        }
        self.written = Instant::now(self.rt).ok();
        let problem = self.problem;
        let positions = expanded.saturating_sub(self.before);
        let _ = eprint!(self.rt; "\r\x1b[Kproblem {problem}: {moves} moves, {positions} positions");
    }

    /// Removes the line, if it is visible.
    fn make_way(&mut self) {
        if self.written.is_some() {
            self.written = None;
            let _ = eprint!(self.rt; "\r\x1b[K");
        }
    }
}
