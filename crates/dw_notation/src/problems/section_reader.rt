//! A reader of one section of tags, which is given its bytes in pieces.
ghost use Rattle.std.specs.Prelude.{◌≡◌, ◌+◌, ◌<◌, ℕ, List, [], ◌∷◌, ◌++◌, length, take, Bool, true, false};
ghost use Rattle.std.specs.Prelude.{Some, IfSome, IfNone, option_to_list};
ghost use Rattle.dw_notation.specs.TextLines.{Found};
ghost use Rattle.dw_notation.specs.WholeTexts.{SectionsSay};
ghost use Rattle.dw_notation.specs.inner.Readers.{ahead_of, cut_of};

use super::ProblemFault;
use super::pdn::Sections;
use dw_board::{Board, Position};
use std::marker::PhantomData;

/// A reader of a text of tags in pieces, for callers that keep the bytes: it finds the byte at which a section ends. It
/// allocates nothing, and keeps the same parts of a section as [`Problems`](super::Problems).
#[derive(Drop)]
pub struct SectionReader<B: Board> {
    sections: Sections,
    board: PhantomData<B>,
}

impl<B: Board> SectionReader<B> {
    /// Returns a reader that was given no byte yet.
    #[tactic(auto, unfolding(crate::specs::inner::Readers::ahead_of))]
    pub fn new() -> SectionReader<B>
        ensures said { (over : Bool) (bytes : List ℕ)
            → SectionsSay B.geometry over bytes (ahead_of result B.geometry over bytes) }
        ensures begun { ahead_of result B.geometry false [] ≡ [] }
    {
        dw_board::laws::reading_is_grammar();
        SectionReader {
            sections: Sections::new(),
            board: PhantomData,
        }
    }

    /// Reads up to the byte that ends a section, and returns its place, or `None` after all bytes. That byte is no part
    /// of the section.
    #[tactic(auto, unfolding(crate::specs::inner::Readers::ahead_of))]
    pub fn cut(&mut self, bytes: &[u8]) -> Option<usize>
        ensures some { IfSome result (λ k. (found : Found) × (k < length bytes.now)
            × (cut_of self.new B.geometry ≡ Some found)
            × (ahead_of self.old B.geometry false (take k bytes.now) ≡ [])
            × ((over : Bool) (more : List ℕ) → ahead_of self.old B.geometry over (take (k + 1) bytes.now ++ more)
            ≡ found ∷ ahead_of self.new B.geometry over more)) }
        ensures none { IfNone result ((over : Bool) (more : List ℕ)
            → ahead_of self.old B.geometry over (bytes.now ++ more) ≡ ahead_of self.new B.geometry over more) }
        ensures begun { ahead_of self.new B.geometry false [] ≡ [] }
    {
        self.sections.cut(bytes)
    }

    /// Returns the problem of the section that ended last, if there is one.
    #[tactic(auto, unfolding(crate::specs::inner::Readers::cut_of))]
    pub fn found(&self) -> Option<Result<Position<B>, ProblemFault>>
        ensures { result ≡ cut_of self.now B.geometry }
    {
        self.sections.found()
    }

    /// Ends the text, and returns the problem of a section or a comment that is open there, if there is one.
    #[tactic(auto, unfolding(crate::specs::inner::Readers::ahead_of))]
    pub fn finish(&mut self) -> Option<Result<Position<B>, ProblemFault>>
        ensures { ahead_of self.old B.geometry true [] ≡ option_to_list result }
    {
        self.sections.finish();
        self.sections.found()
    }
}
