//! A finder of the next section of a PDN text.
ghost use Rattle.std.specs.Prelude.{◌≡◌, ◌+◌, ◌<◌, [], ◌∷◌, false, length, take, drop, IfSome, IfNone, if◌then◌else◌};
ghost use Rattle.dw_notation.specs.Between.{IsBetween};
ghost use Rattle.dw_notation.specs.declared.problems.pdn.automaton.State.TheVariants as state;

use super::pdn::automaton::{Action, State};

/// Finds where the next section of a text begins, whatever pieces the text comes in. It passes over movetext, and over
/// comments in braces, in which no section begins.
#[derive(Clone, Copy)]
pub struct SectionFinder {
    is_comment: bool,
}

impl SectionFinder {
    ghost use Rattle.dw_notation.specs.Between.{in_comment};

    /// Returns a finder for a text that begins outside a comment.
    pub fn new() -> SectionFinder
        ensures { in_comment result ≡ false }
    {
        SectionFinder { is_comment: false }
    }

    /// Returns whether the text read so far ends in a comment.
    pub fn is_in_comment(self) -> bool
        ensures { result ≡ in_comment self }
    {
        self.is_comment
    }

    /// Returns the place of the bracket that begins the next section, or `None` after all bytes were passed over.
    pub fn find(&mut self, bytes: &[u8]) -> Option<usize>
        ensures some { IfSome result (λ k. (k < length bytes.now) × (in_comment self.new ≡ false)
            × IsBetween (in_comment self.old) false (take k bytes.now)
            × (drop k bytes.now ≡ 91 ∷ drop (k + 1) bytes.now)) }
        ensures none { IfNone result (IsBetween (in_comment self.old) (in_comment self.new) bytes.now) }
    {
        let mut at = self.state().passed(bytes);
        'bytes: while at < bytes.len() {
            let to = self.state().transition(bytes[at]);
            if let Action::Open = to.action {
                return Some(at);
            }
            self.is_comment = matches!(to.state, State::Comment);
            at += 1;
            at += self.state().passed(&bytes[at..]);
        }
        None
    }

    /// Returns the state of the automaton after the text read so far.
    fn state(self) -> State
        ensures { result ≡ (if self.is_comment then state.Comment else state.Outside) }
    {
        if self.is_comment {
            State::Comment
        } else {
            State::Outside
        }
    }
}
