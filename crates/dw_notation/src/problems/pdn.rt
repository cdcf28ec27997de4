//! The sections of a PDN text, cut out of its bytes one after another.
ghost use Rattle.std.specs.Prelude.{◌≡◌, ◌+◌, ◌<◌, ℕ, Bool, true, false, if◌then◌else◌, IfSome, IfNone};
ghost use Rattle.std.specs.Prelude.{List, [], ◌∷◌, ◌++◌, length, take, drop, option_to_list};
ghost use Rattle.dw_board.specs.Geometry.{Geometry};

pub(crate) mod automaton;
mod section;

use super::ProblemFault;
use automaton::{Action, State};
use dw_board::{Board, Position};
use section::HeldSection;

/// The piece that was cut off last from a text of tags.
#[derive(Clone, Copy)]
enum Cut {
    Nothing,
    Section,
    /// A comment that is not closed.
    Comment,
}

/// The reading state of a text of tags, and the section that ended last.
#[derive(Drop)]
pub(super) struct Sections {
    state: State,
    section: HeldSection,
    cut: Cut,
}

impl Sections {
    ghost use Rattle.dw_notation.specs.inner.HeldSection.{sections_ahead, sections_cut, held_of, held_bare, EndsAt};

    pub(super) fn new() -> Sections
        ensures state { result.state ≡ State.Outside }
        ensures section { held_of result.section ≡ held_bare }
    {
        Sections {
            state: State::Outside,
            section: HeldSection::new(),
            cut: Cut::Nothing,
        }
    }

    /// Reads a byte, and returns whether it ends a section, which is then cut off.
    fn add(&mut self, byte: u8) -> bool
        ensures cut { result ≡ true → self.new.cut ≡ Cut.Section }
        ensures said { (g : Geometry) (at_end : Bool) (more : List ℕ) → sections_ahead at_end g self.old (byte ∷ more)
            ≡ (if result then option_to_list (sections_cut g self.new) else [])
            ++ sections_ahead at_end g self.new more }
    {
        let transition = self.state.transition(byte);
        self.state = transition.state;
        if let Action::End = transition.action {
            self.cut = Cut::Section;
            return true;
        }
        self.section.add(transition.action);
        false
    }

    /// Reads up to the byte that ends a section, and returns its place, or `None` after all bytes.
    pub(super) fn cut(&mut self, bytes: &[u8]) -> Option<usize>
        ensures some { IfSome result (EndsAt self.old self.new bytes.now) }
        ensures none { IfNone result ((g : Geometry) (at_end : Bool) (more : List ℕ) →
            sections_ahead at_end g self.old (bytes.now ++ more) ≡ sections_ahead at_end g self.new more) }
    {
        let mut at = self.state.passed(bytes);
        'bytes: while at < bytes.len() {
            if self.add(bytes[at]) {
                return Some(at);
            }
            at += 1;
            at += self.state.passed(&bytes[at..]);
        }
        None
    }

    /// Ends the section or the comment that is open at the end of the text, if there is one.
    pub(super) fn finish(&mut self)
        ensures found { (g : Geometry) → sections_ahead true g self.old [] ≡ option_to_list (sections_cut g self.new) }
        ensures over { (g : Geometry) → sections_ahead true g self.new [] ≡ [] }
    {
        match self.state {
            State::Outside => self.cut = Cut::Nothing,
            State::Comment => self.cut = Cut::Comment,
            State::Between => self.cut = Cut::Section,
            _ => {
                self.section.add(Action::EndLine);
                self.cut = Cut::Section;
            }
        }
        self.state = State::Outside;
    }

    /// Returns the problem of the section or the open comment that was cut off last, if there is one.
    pub(super) fn found<B: Board>(&self) -> Option<Result<Position<B>, ProblemFault>>
        ensures { result ≡ sections_cut B.geometry self.now }
    {
        match self.cut {
            Cut::Nothing => None,
            Cut::Section => Some(self.section.found()),
            Cut::Comment => Some(Err(ProblemFault::UnclosedComment)),
        }
    }
}
