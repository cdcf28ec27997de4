//! The reader of problems over a source: it cuts the input into lines or sections.
ghost use Rattle.std.specs.Prelude.{◌≡◌, ℕ, ◌+◌, ◌<◌, ◌≤◌, ◌⊎◌, ◌||◌, Bool, true, false, MatchBool};
ghost use Rattle.std.specs.Prelude.{List, [], ◌∷◌, ◌++◌, length, take, drop, option_to_list};
ghost use Rattle.std.specs.Prelude.{IfSome, IfNone, IfOk, IsErr, is_err, OnOk};
ghost use Rattle.dw_board.specs.Geometry.{Geometry};

use super::fens::TextLines;
use super::pdn::Sections;
use super::{Form, MAX_PROBLEMS, Numbering, Problem, ProblemFault, ReadFault};
use crate::streams::{Buffer, Source};
use dw_board::{Board, Position};
use std::marker::PhantomData;

/// The progress of reading a text, by its form.
#[derive(Drop)]
enum Pieces {
    InLines(TextLines),
    InSections(Sections),
}

impl Pieces {
    ghost use Rattle.dw_notation.specs.inner.Problems.{found_of};
    ghost use Rattle.dw_notation.specs.inner.Pieces.{pieces_ahead, pieces_behind, pieces_cut};

    /// Returns a reader before its first read.
    fn new(form: Form) -> Pieces
        ensures { (over : Bool) (g : Geometry) (bytes : List ℕ)
            → pieces_ahead over g result bytes ≡ found_of over g form bytes }
    {
        match form {
            Form::Fens => Pieces::InLines(TextLines::new()),
            Form::Pdn => Pieces::InSections(Sections::new()),
        }
    }

    /// Reads up to the end of a piece, and returns the place where it ends, or `None` after all bytes.
    fn cut(&mut self, bytes: &[u8]) -> Option<usize>
        ensures some { IfSome result (λ k. (k < length bytes.now) × ((g : Geometry) (at_end : Bool) (more : List ℕ) →
            pieces_ahead at_end g self.old (bytes.now ++ more)
            ≡ option_to_list (pieces_cut g self.new)
            ++ pieces_behind at_end g self.new (drop (k + 1) bytes.now ++ more))) }
        ensures none { IfNone result ((g : Geometry) (at_end : Bool) (more : List ℕ) →
            pieces_ahead at_end g self.old (bytes.now ++ more) ≡ pieces_ahead at_end g self.new more) }
    {
        match self {
            Pieces::InLines(lines) => lines.cut(bytes),
            Pieces::InSections(sections) => sections.cut(bytes),
        }
    }

    /// Cuts off the last piece of the text.
    fn finish(&mut self)
        ensures found { (g : Geometry) → pieces_ahead true g self.old [] ≡ option_to_list (pieces_cut g self.new) }
        ensures over { (g : Geometry) → pieces_behind true g self.new [] ≡ [] }
    {
        match self {
            Pieces::InLines(_) => {}
            Pieces::InSections(sections) => sections.finish(),
        }
    }

    /// Returns the problem of the piece that was cut off.
    fn found<B: Board>(&self) -> Option<Result<Position<B>, ProblemFault>>
        ensures { result ≡ pieces_cut B.geometry self.now }
    {
        match self {
            Pieces::InLines(lines) => lines.found(),
            Pieces::InSections(sections) => sections.found(),
        }
    }

    /// Forgets the piece that was cut off.
    fn clear(&mut self)
        ensures { (g : Geometry) (at_end : Bool) (more : List ℕ)
            → pieces_behind at_end g self.old more ≡ pieces_ahead at_end g self.new more }
    {
        match self {
            Pieces::InLines(lines) => lines.clear(),
            Pieces::InSections(_) => {}
        }
    }
}

/// The problems of a source, each cut out of the bytes as they are read. It allocates nothing. Of its input it holds
/// one read and one line at most.
#[derive(Drop)]
pub struct Problems<'a, B: Board, S> {
    source: &'a mut S,
    buffer: Buffer,
    pieces: Pieces,
    numbers: Numbering,
    board: PhantomData<B>,
}

impl<'a, B: Board, S: Source> Problems<'a, B, S> {
    ghost use Rattle.dw_notation.specs.Buffering.{unread_in, met_end_in, EndIsKnown};
    ghost use Rattle.dw_notation.specs.Buffering.{weight};
    ghost use Rattle.dw_notation.specs.Numbering.{handed_out};
    ghost use Rattle.dw_notation.specs.Problems.{AreProblems, number_from};
    ghost use Rattle.dw_notation.specs.Reading.{lender, source_of, NextGives, EndIsTrue, HasStopped, IsCounted};
    ghost use Rattle.dw_notation.specs.Streams.{Supply};
    ghost use Rattle.dw_notation.specs.inner.Problems.{numbered_in};
    ghost use Rattle.dw_notation.specs.inner.Pieces.{pieces_ahead, pieces_behind};
    ghost use Rattle.dw_notation.specs.inner.Cutting.{progress_of, found_ahead, found_behind, found_cut};
    ghost use Rattle.dw_notation.specs.inner.Cutting.{IsStarved, ReadsPiece};
    ghost use Rattle.dw_notation.specs.inner.Readers.{reader_of};

    /// Returns a reader of all problems that the source has still to give. The source must not have failed.
    #[tactic(auto, unfolding(crate::specs::inner::Readers::reader_of))]
    pub fn new(source: &'a mut S, form: Form) -> Problems<'a, B, S>
        requires { S.is_failed source.old ≡ false }
        ensures lender { lender result ≡ source.entry.ghost_name }
        ensures source { source_of result ≡ source.old }
        ensures ahead { (over : Bool) (bytes : List ℕ)
            → AreProblems B.geometry form over bytes ((reader_of result).ahead B.geometry over bytes) }
        ensures met_end { (reader_of result).met_end ≡ false }
        ensures handed { (reader_of result).handed ≡ 0 }
    {
        dw_board::laws::reading_is_grammar();
        Problems {
            source,
            buffer: Buffer::new(),
            pieces: Pieces::new(form),
            numbers: Numbering::new(),
            board: PhantomData,
        }
    }

    /// Cuts off a piece that ends in the buffer, and returns whether there is one.
    fn cut(&mut self) -> bool
        ensures source { self.new.source ≡ self.old.source }
        ensures met_end { met_end_in self.new.buffer ≡ met_end_in self.old.buffer }
        ensures numbers { self.new.numbers ≡ self.old.numbers }
        ensures found { result ≡ true → ((g : Geometry) (at_end : Bool) (more : List ℕ)
            → found_ahead at_end g (progress_of self.old) more
            ≡ found_cut g (progress_of self.new) ++ found_behind at_end g (progress_of self.new) more) }
        ensures shorter { result ≡ true → length (unread_in self.new.buffer) < length (unread_in self.old.buffer) }
        ensures none { result ≡ false → unread_in self.new.buffer ≡ [] }
        ensures same { result ≡ false → ((g : Geometry) (at_end : Bool) (more : List ℕ)
            → found_ahead at_end g (progress_of self.old) more ≡ found_ahead at_end g (progress_of self.new) more) }
    {
        let bytes = self.buffer.unread();
        let count = bytes.len();
        match self.pieces.cut(bytes) {
            Some(place) => {
                self.buffer.consume(place + 1);
                true
            }
            None => {
                self.buffer.consume(count);
                false
            }
        }
    }

    /// Reads up to the end of a piece, and returns whether it ends before the text does.
    fn next_piece(&mut self) -> Result<bool, ReadFault>
        ensures lender { lender self.new ≡ lender self.old }
        ensures numbers { self.new.numbers ≡ self.old.numbers }
        ensures piece { ReadsPiece (S.supply (source_of self.old)) (S.supply (source_of self.new))
            (progress_of self.old) (progress_of self.new) result }
        ensures end { (began : Supply) → EndIsKnown began (S.supply (source_of self.old)) (met_end_in self.old.buffer)
            → EndIsKnown began (S.supply (source_of self.new)) (met_end_in self.new.buffer) }
        ensures failed { S.is_failed (source_of self.new) ≡ (S.is_failed (source_of self.old) || is_err result) }
        ensures stays { met_end_in self.old.buffer ≡ true → met_end_in self.new.buffer ≡ true }
        ensures again { S.is_failed (source_of self.old) ≡ true → IsStarved (progress_of self.old) → IsErr result }
        ensures falls { result ≡ Ok true
            → weight (S.pulls_left (source_of self.new)) (unread_in self.new.buffer)
            < weight (S.pulls_left (source_of self.old)) (unread_in self.old.buffer) }
    {
        'reads: loop {
            self.buffer.fill(self.source)?;
            if self.buffer.unread().is_empty() {
                self.pieces.finish();
                return Ok(false);
            }
            if self.cut() {
                return Ok(true);
            }
        }
    }

    /// Returns the problem of the piece that was cut off, if it has one, and forgets the piece.
    fn hand_out(&mut self) -> Option<Problem<B>>
        requires { handed_out self.old.numbers ≤ MAX_PROBLEMS }
        ensures source { self.new.source ≡ self.old.source }
        ensures buffer { self.new.buffer ≡ self.old.buffer }
        ensures ahead { (g : Geometry) (at_end : Bool) (more : List ℕ)
            → pieces_behind at_end g self.old.pieces more ≡ pieces_ahead at_end g self.new.pieces more }
        ensures handed { handed_out self.new.numbers
            ≡ handed_out self.old.numbers + length (option_to_list result) }
        ensures number { IfSome result (λ problem. problem.number ≡ handed_out self.new.numbers) }
        ensures given { (found : _)
            → number_from (handed_out self.old.numbers) (found_cut B.geometry (progress_of self.old) ++ found)
            ≡ numbered_in result ++ number_from (handed_out self.new.numbers) found }
    {
        let found = self.pieces.found();
        self.pieces.clear();
        Some(self.numbers.hand_out(found?))
    }

    /// Returns the reference to the source. A reader that is dropped does not tell its caller what it read.
    pub fn into_source(self) -> &'a mut S
        ensures lender { result.ghost_name ≡ lender self.entry }
        ensures source { result.now ≡ source_of self.entry }
    {
        let Problems { source, .. } = self;
        source
    }

    /// Returns the next problem, or `None` if the text has no more. `Failed` is the source's fault: no problem that was
    /// read whole is lost by it, and each later call returns `Failed` too.
    #[tactic(auto, unfolding(crate::specs::inner::Readers::reader_of))]
    pub fn next(&mut self) -> Result<Option<Problem<B>>, ReadFault>
        ensures lender { lender self.new ≡ lender self.old }
        ensures given { NextGives B.geometry (S.supply (source_of self.old)) (S.supply (source_of self.new))
            (reader_of self.old) (reader_of self.new) result }
        ensures end { (began : Supply) → EndIsTrue began (S.supply (source_of self.old)) (reader_of self.old)
            → EndIsTrue began (S.supply (source_of self.new)) (reader_of self.new) }
        ensures failed { S.is_failed (source_of self.new) ≡ (S.is_failed (source_of self.old) || is_err result) }
        ensures stopped { IsErr result
            → HasStopped (S.is_failed (source_of self.new)) (reader_of self.new) }
        ensures again { HasStopped (S.is_failed (source_of self.old)) (reader_of self.old)
            → IsErr result }
        ensures stays { (reader_of self.old).met_end ≡ true → (reader_of self.new).met_end ≡ true }
        ensures counted { IsCounted (reader_of self.old) (reader_of self.new) result }
    {
        'pieces: loop {
            if self.numbers.is_over() {
                return Ok(None);
            }
            match self.next_piece() {
                Err(fault) => return Err(fault),
                Ok(is_whole) => {
                    if let Some(problem) = self.hand_out() {
                        return Ok(Some(problem));
                    }
                    if !is_whole {
                        return Ok(None);
                    }
                }
            }
        }
    }
}
