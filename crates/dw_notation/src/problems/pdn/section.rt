//! The parts of a PDN section that decide its problem.
ghost use Rattle.std.specs.Prelude.{◌≡◌};
ghost use Rattle.dw_notation.specs.inner.Sections.{kind_of};
ghost use Rattle.dw_notation.specs.Tags.{same_name};
ghost use Rattle.dw_notation.specs.inner.HeldSection.{game_on, number_held, counted};

use super::super::{MAX_SECTION, PAST_FEN, ProblemFault};
use super::automaton::Action;
use crate::bytes::is_blank;
use arrayvec::ArrayVec;
use dw_board::{Board, Position, read_fen};

/// The number of bytes kept of a tag's name: one more than the longest name that matters has.
const NAME: usize = 9;

/// The greatest number of bytes that is counted: one more than a section may have.
const SECTION_COUNTED: usize = MAX_SECTION + 1;

/// The game of the problems that are read.
const GAME: u8 = 20;

/// The number that stands for all greater games.
const GREATER_GAME: u8 = GAME + 1;

/// The kind of a tag, by its name.
#[derive(Clone, Copy)]
enum TagKind {
    FenTag,
    GameTag,
    OtherTag,
}

fn kind_of(name: &[u8]) -> TagKind
    ensures { result ≡ kind_of name.now }
{
    if is_named(name, b"FEN") {
        TagKind::FenTag
    } else if is_named(name, b"GameType") {
        TagKind::GameTag
    } else {
        TagKind::OtherTag
    }
}

fn is_named(name: &[u8], word: &[u8]) -> bool
    ensures { result ≡ same_name name.now word.now }
{
    name.eq_ignore_ascii_case(word)
}

/// The game that a value names, as far as the value was read.
#[derive(Clone, Copy)]
enum Game {
    /// Blanks alone were read.
    Before,
    /// Digits were read.
    Within(u8),
    /// A byte that is no digit was read, so the number is known.
    Behind(u8),
}

impl Game {
    /// Returns the game with one more byte of the value.
    fn with(self, byte: u8) -> Game
        ensures { result ≡ game_on self byte }
    {
        match self {
            Game::Before => first_of_game(byte),
            Game::Within(number) => next_of_game(number, byte),
            Game::Behind(number) => Game::Behind(number),
        }
    }

    /// Returns its number, if the value ends here.
    fn number(self) -> u8
        ensures { result ≡ number_held self }
    {
        match self {
            Game::Before => GAME,
            Game::Within(number) | Game::Behind(number) => number,
        }
    }
}

fn first_of_game(byte: u8) -> Game
    ensures { result ≡ game_on Game.Before byte }
{
    if is_blank(byte) {
        Game::Before
    } else if byte.is_ascii_digit() {
        Game::Within(byte - b'0')
    } else {
        Game::Behind(GAME)
    }
}

fn next_of_game(number: u8, byte: u8) -> Game
    ensures { result ≡ game_on (Game.Within number) byte }
{
    if byte.is_ascii_digit() {
        let more = u16::from(number) * 10 + u16::from(byte - b'0');
        Game::Within(more.min(u16::from(GREATER_GAME)) as u8)
    } else {
        Game::Behind(number)
    }
}

/// Adds one, up to the greatest number that is counted.
fn counted(most: usize, count: usize) -> usize
    ensures { result ≡ counted most count }
{
    if count < most { count + 1 } else { count }
}

/// The parts of a section that decide its problem.
#[derive(Drop)]
pub(super) struct HeldSection {
    /// The number of bytes read from its first bracket on, as far as they are counted.
    read: usize,
    /// The number of them up to the end of its last tag.
    size: usize,
    is_unclosed: bool,
    name: ArrayVec<u8, NAME>,
    kind: TagKind,
    /// The number of its FEN tags, 2 for two and more.
    fens: usize,
    /// The value of the first of them, up to one byte more than a FEN text may have.
    fen_text: ArrayVec<u8, PAST_FEN>,
    game: Game,
    has_game: bool,
    is_wrong: bool,
}

impl HeldSection {
    ghost use Rattle.dw_notation.specs.inner.HeldSection.{held_of, held_bare, held_after, held_found, value_on, tag_on};
    ghost use Rattle.dw_notation.specs.inner.HeldSection.{counted_in, with_byte, is_wrong_held, fens_held};

    pub(super) fn new() -> HeldSection
        ensures { held_of result ≡ held_bare }
    {
        HeldSection {
            read: 0,
            size: 0,
            is_unclosed: false,
            name: ArrayVec::new(),
            kind: TagKind::OtherTag,
            fens: 0,
            fen_text: ArrayVec::new(),
            game: Game::Before,
            has_game: false,
            is_wrong: false,
        }
    }

    /// Begins a new section after its first bracket.
    fn open(&mut self)
        ensures { held_of self.new ≡ record held_bare { read = 1 } }
    {
        self.read = 1;
        self.size = 0;
        self.is_unclosed = false;
        self.name.clear();
        self.kind = TagKind::OtherTag;
        self.fens = 0;
        self.fen_text.clear();
        self.game = Game::Before;
        self.has_game = false;
        self.is_wrong = false;
    }

    fn count(&mut self)
        ensures { held_of self.new ≡ counted_in (held_of self.old) }
    {
        self.read = counted(SECTION_COUNTED, self.read);
    }

    fn add_name(&mut self, byte: u8)
        ensures { held_of self.new ≡ held_after (Action.AddName byte) (held_of self.old) }
    {
        self.count();
        if self.name.len() < NAME {
            self.name.push(byte);
        }
    }

    fn open_value(&mut self)
        ensures { held_of self.new ≡ held_after Action.OpenValue (held_of self.old) }
    {
        self.count();
        self.kind = kind_of(self.name.as_slice());
        self.game = Game::Before;
        if self.fens == 0 {
            self.fen_text.clear();
        }
    }

    fn add_fen(&mut self, byte: u8)
        ensures { held_of self.new ≡ value_on TagKind.FenTag (held_of self.old) byte }
    {
        if self.fens == 0 && self.fen_text.len() < PAST_FEN {
            self.fen_text.push(byte);
        }
    }

    fn add_value(&mut self, byte: u8)
        ensures { held_of self.new ≡ value_on self.old.kind (held_of self.old) byte }
    {
        match self.kind {
            TagKind::FenTag => self.add_fen(byte),
            TagKind::GameTag => self.game = self.game.with(byte),
            TagKind::OtherTag => {}
        }
    }

    fn add_tag(&mut self)
        ensures { held_of self.new ≡ tag_on self.old.kind (held_of self.old) }
    {
        match self.kind {
            TagKind::FenTag => self.fens = counted(2, self.fens),
            TagKind::GameTag => {
                self.has_game = true;
                self.is_wrong = self.game.number() != GAME || self.is_wrong;
            }
            TagKind::OtherTag => {}
        }
    }

    fn close(&mut self)
        ensures { held_of self.new ≡ held_after Action.Close (held_of self.old) }
    {
        self.count();
        self.size = self.read;
        self.add_tag();
    }

    fn end_line(&mut self)
        ensures { held_of self.new ≡ held_after Action.EndLine (held_of self.old) }
    {
        self.size = self.read;
        self.is_unclosed = true;
        self.count();
    }

    /// Applies the effect of a byte to a section.
    pub(super) fn add(&mut self, action: Action)
        ensures { held_of self.new ≡ held_after action (held_of self.old) }
    {
        match action {
            Action::Keep | Action::End => {}
            Action::Open => self.open(),
            Action::Count => self.count(),
            Action::AddName(byte) => self.add_name(byte),
            Action::OpenValue => self.open_value(),
            Action::AddValue(byte) => {
                self.count();
                self.add_value(byte);
            }
            Action::AddBoth(byte) => {
                self.count();
                self.add_value(b'\\');
                self.add_value(byte);
            }
            Action::Close => self.close(),
            Action::Break => {
                self.count();
                self.is_unclosed = true;
            }
            Action::EndLine => self.end_line(),
            Action::NextTag => {
                self.count();
                self.name.clear();
            }
        }
    }

    fn is_wrong_game<B: Board>(&self) -> bool
        ensures { result ≡ is_wrong_held B.geometry (held_of self.now) }
    {
        if B::ROWS == 10 {
            self.is_wrong
        } else {
            self.has_game
        }
    }

    /// Returns the position of its FEN tags, or the fault.
    fn fens_found<B: Board>(&self) -> Result<Position<B>, ProblemFault>
        ensures { result ≡ fens_held B.geometry self.now.fens self.now.fen_text.items }
    {
        if self.fens == 0 {
            return Err(ProblemFault::NoFen);
        }
        if self.fens != 1 {
            return Err(ProblemFault::TwoFens);
        }
        match read_fen(self.fen_text.as_slice()) {
            Ok(position) => Ok(position),
            Err(fault) => Err(ProblemFault::Fen(fault)),
        }
    }

    /// Returns the problem of the section.
    pub(super) fn found<B: Board>(&self) -> Result<Position<B>, ProblemFault>
        ensures { result ≡ held_found B.geometry (held_of self.now) }
    {
        if self.size > MAX_SECTION {
            return Err(ProblemFault::SectionTooLong);
        }
        if self.is_unclosed {
            return Err(ProblemFault::UnclosedTag);
        }
        if self.is_wrong_game::<B>() {
            return Err(ProblemFault::WrongGame);
        }
        self.fens_found()
    }
}
