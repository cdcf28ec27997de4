//! The games of a text of tags: its sections, each with its bytes and its movetext.
ghost use Rattle.std.specs.Prelude.{◌≡◌, ◌∷◌, ◌+◌, ◌≤◌, ◌||◌, [], false, None, List, ℕ, drop};
ghost use Rattle.std.specs.Prelude.{OnOk};
ghost use Rattle.dw_games.specs.declared.games.GameFault.TheVariants.{Failed, Memory};
ghost use Rattle.dw_games.specs.declared.games.Stage.TheVariants.{Over};
ghost use Rattle.dw_games.specs.inner.GameReaders.{stage_behind};
ghost use Rattle.dw_games.specs.inner.Keeping.{IsKept, IsKeptFor, IsTold};

use crate::bounded_buf::BoundedBuf;
use crate::movetext::MAX_MOVETEXT;
use crate::play::{PlayEnd, scan_to_section};
use crate::section::read_section;
use dw_board::{Board, Position};
use dw_notation::problems::{MAX_PROBLEMS, MAX_SECTION};
use dw_notation::{Buffer, Numbering, Problem, ProblemFault, ReadFault, Source};
use std::alloc::{AllocError, Global};
use std::marker::PhantomData;
use thiserror::Error;

/// A game of a text: the problem of its section, the bytes of the section's tags from the first bracket to the last,
/// and the movetext after them, up to the next section. At most `MAX_SECTION` bytes of tags are kept, and at most
/// `MAX_MOVETEXT` + 1 bytes of a movetext, which `read_movetext` then refuses as too large. Tags and movetext of a
/// refused problem are empty.
#[derive(Drop)]
pub struct Game<B: Board> {
    pub problem: Problem<B>,
    pub tags: Vec<u8>,
    pub movetext: Vec<u8>,
}

/// Why a game could not be read. It says nothing of the text.
#[derive(Clone, Copy, Debug, PartialEq, Eq, Error)]
pub enum GameFault {
    #[error("the source failed")]
    Failed,
    #[error("memory")]
    Memory,
}

impl From<AllocError> for GameFault {
    ghost from_gives = { λ _ e. e ≡ Memory };

    fn from(_refused: AllocError) -> GameFault {
        GameFault::Memory
    }
}

impl From<ReadFault> for GameFault {
    ghost from_gives = { λ _ e. e ≡ Failed };

    fn from(_failed: ReadFault) -> GameFault {
        GameFault::Failed
    }
}

/// The state of a reader of games.
#[derive(Clone, Copy)]
enum Stage {
    /// Bytes may still follow, and sections in them.
    Reading,
    /// After a movetext with a comment that the end of the text leaves open. That comment is a problem of its own.
    Open,
    Over,
    Stopped(GameFault),
}

/// Returns the state of a reader after a movetext with this end.
fn stage_behind(end: PlayEnd) -> Stage
    ensures { result ≡ stage_behind end }
{
    match end {
        PlayEnd::Section | PlayEnd::Text => Stage::Reading,
        PlayEnd::Open => Stage::Open,
    }
}

/// Returns the buffer for a movetext: the one begun, or one that keeps nothing if the problem is refused.
fn movetext_if_valid<B: Board>(
    alloc: Global,
    found: &Result<Position<B>, ProblemFault>,
    begun: BoundedBuf,
) -> BoundedBuf
    ensures { (text : List ℕ) → IsKept (MAX_MOVETEXT + 1) text begun → IsKeptFor found.now text result }
{
    match found {
        Ok(_) => begun,
        Err(_) => BoundedBuf::new(alloc, 0),
    }
}

/// Returns the tags of a game: the kept bytes without the spaces at their end, or nothing if the problem is refused.
fn tags_if_valid<B: Board>(
    alloc: Global,
    found: &Result<Position<B>, ProblemFault>,
    row: BoundedBuf,
) -> Vec<u8>
    ensures { IsTold found.now row.bytes.items result.items }
{
    match found {
        Ok(_) => row.into_trimmed(),
        Err(_) => Vec::new(alloc),
    }
}

/// Reads the games of a source one by one. It holds the last read of at most 2,048 bytes, and the tags and the movetext
/// that are being read.
#[derive(Drop)]
pub struct Games<'a, B: Board, S> {
    alloc: Global,
    source: &'a mut S,
    buffer: Buffer,
    stage: Stage,
    numbers: Numbering,
    board: PhantomData<B>,
}

impl<'a, B: Board, S: Source> Games<'a, B, S> {
    ghost use Rattle.dw_games.specs.Games.{AreGames, NumberedGame, games_from};
    ghost use Rattle.dw_games.specs.GameReading.{lender, source_of, numbered_game, is_failure};
    ghost use Rattle.dw_games.specs.GameReading.{GivesNext, EndIsTrue, StandsStill, Rests};
    ghost use Rattle.dw_notation.specs.Streams.{Supply};
    ghost use Rattle.dw_games.specs.inner.GameReaders.{reading_of, fault_of, input_in, is_done, ReadsGame};
    ghost use Rattle.dw_notation.specs.Buffering.{unread_in};
    ghost use Rattle.dw_notation.specs.Numbering.{handed_out};
    ghost use Rattle.dw_games.specs.inner.Playing.{unclosed};

    /// Returns a reader of all games that the source has still to give.
    #[tactic(auto, unfolding(crate::specs::inner::GameReaders::reading_of))]
    pub fn new(alloc: Global, source: &'a mut S) -> Games<'a, B, S>
        ensures lender { lender result ≡ source.entry.ghost_name }
        ensures source { source_of result ≡ source.old }
        ensures ahead { (bytes : List ℕ) (games : List NumberedGame)
            → (reading_of result).ahead B.geometry bytes games → AreGames B.geometry bytes games }
        ensures some { (bytes : List ℕ) → (games : List NumberedGame)
            × (reading_of result).ahead B.geometry bytes games }
        ensures met_end { (reading_of result).met_end ≡ false }
        ensures is_over { (reading_of result).is_over ≡ false }
        ensures fault { (reading_of result).fault ≡ None }
    {
        dw_notation::laws::texts_of_tags_say();
        Games {
            alloc,
            source,
            buffer: Buffer::new(),
            stage: Stage::Reading,
            numbers: Numbering::new(),
            board: PhantomData,
        }
    }

    /// Returns whether all games are handed out.
    fn is_over(&self) -> bool
        ensures { result ≡ is_done self.now.stage (handed_out self.now.numbers) }
    {
        match self.stage {
            Stage::Over => true,
            Stage::Stopped(_) => false,
            Stage::Reading | Stage::Open => self.numbers.is_over(),
        }
    }

    /// Hands out the comment that the end of the text leaves open, as a refused problem without tags and movetext.
    fn hand_out_open(&mut self) -> Game<B>
        requires { handed_out self.old.numbers ≤ MAX_PROBLEMS }
        ensures lender { lender self.new ≡ lender self.old }
        ensures input { input_in self.new ≡ input_in self.old }
        ensures stage { self.new.stage ≡ Over }
        ensures given { numbered_game result ∷ [] ≡ games_from (handed_out self.old.numbers) (unclosed ∷ []) }
    {
        self.stage = Stage::Over;
        let unclosed = Err(ProblemFault::UnclosedComment);
        Game {
            problem: self.numbers.hand_out(unclosed),
            tags: Vec::new(self.alloc),
            movetext: Vec::new(self.alloc),
        }
    }

    /// Reads the game of the section that begins here.
    fn read_game(&mut self) -> Result<Option<Game<B>>, GameFault>
        requires begins { unread_in self.old.buffer ≡ 91 ∷ drop 1 (unread_in self.old.buffer) }
        requires room { handed_out self.old.numbers ≤ MAX_PROBLEMS }
        ensures lender { lender self.new ≡ lender self.old }
        ensures reads { ReadsGame B.geometry S.supply S.is_failed S.pulls_left self.old self.new result }
        ensures goes_on { OnOk result (fault_of self.new.stage ≡ None) }
    {
        dw_notation::laws::texts_of_tags_say();
        let mut row = BoundedBuf::new(self.alloc, MAX_SECTION);
        let mut spaces = BoundedBuf::new(self.alloc, MAX_MOVETEXT + 1);
        let Some(found) = read_section::<B, S>(
            self.source,
            &mut self.buffer,
            &mut row,
            &mut spaces,
        )?
        else {
            return Ok(None);
        };
        let problem = self.numbers.hand_out(found);
        let tags = tags_if_valid(self.alloc, &problem.found, row);
        let mut movetext = movetext_if_valid(self.alloc, &problem.found, spaces);
        self.stage = stage_behind(scan_to_section(self.source, &mut self.buffer, &mut movetext)?);
        Ok(Some(Game {
            problem,
            tags,
            movetext: movetext.into_bytes(),
        }))
    }

    /// Reads up to the end of the next game.
    fn read_on(&mut self) -> Result<Option<Game<B>>, GameFault>
        requires { handed_out self.old.numbers ≤ MAX_PROBLEMS }
        ensures lender { lender self.new ≡ lender self.old }
        ensures reads { ReadsGame B.geometry S.supply S.is_failed S.pulls_left self.old self.new result }
        ensures goes_on { OnOk result (fault_of self.new.stage ≡ None) }
    {
        dw_notation::laws::texts_of_tags_say();
        let mut front = BoundedBuf::new(self.alloc, 0);
        match scan_to_section(self.source, &mut self.buffer, &mut front)? {
            PlayEnd::Section => self.read_game(),
            PlayEnd::Open => Ok(Some(self.hand_out_open())),
            PlayEnd::Text => {
                self.stage = Stage::Over;
                Ok(None)
            }
        }
    }

    /// Returns the reference to the source. A reader that is dropped does not tell its caller what it read.
    pub fn into_source(self) -> &'a mut S
        ensures lender { result.ghost_name ≡ lender self.entry }
        ensures source { result.now ≡ source_of self.entry }
    {
        let Games { source, .. } = self;
        source
    }

    /// Returns the next game, or `None` if the text has no more. It reads up to the next section, or to the end of the
    /// text.
    ///
    /// # Errors
    ///
    /// `Failed` means that the source failed, and `Memory` that memory was refused. Either way the game that was being
    /// read is lost, and each later call returns the same error.
    #[tactic(auto, unfolding(crate::specs::inner::GameReaders::reading_of))]
    pub fn next(&mut self) -> Result<Option<Game<B>>, GameFault>
        ensures lender { lender self.new ≡ lender self.old }
        ensures given { GivesNext B.geometry (S.supply (source_of self.old)) (S.supply (source_of self.new))
            (reading_of self.old) (reading_of self.new) result }
        ensures end { (began : Supply) → EndIsTrue began (S.supply (source_of self.old)) (reading_of self.old)
            → EndIsTrue began (S.supply (source_of self.new)) (reading_of self.new) }
        ensures failed { (reading_of self.old).fault ≡ None
            → S.is_failed (source_of self.new) ≡ (S.is_failed (source_of self.old) || is_failure result) }
        ensures still { StandsStill (reading_of self.old) result }
        ensures rests { Rests (reading_of self.old) → source_of self.new ≡ source_of self.old }
        ensures goes_on { OnOk result ((reading_of self.new).fault ≡ None) }
    {
        dw_notation::laws::texts_of_tags_say();
        if self.is_over() {
            return Ok(None);
        }
        match self.stage {
            Stage::Over => Ok(None),
            Stage::Stopped(fault) => Err(fault),
            Stage::Open => Ok(Some(self.hand_out_open())),
            Stage::Reading => match self.read_on() {
                Ok(game) => Ok(game),
                Err(fault) => {
                    self.stage = Stage::Stopped(fault);
                    Err(fault)
                }
            },
        }
    }
}
