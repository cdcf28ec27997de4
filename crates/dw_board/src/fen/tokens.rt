//! The tokens of a FEN text, read from the front.
ghost use Rattle.std.specs.Prelude.{◌≡◌, ◌+◌, ◌≤◌, ◌<◌, ◌||◌, false, true, length, take, drop, is_some, slice_get};
ghost use Rattle.dw_board.specs.inner.FenBlanks.{begins_with_blank, IsSignByte};
ghost use Rattle.dw_board.specs.FenTokens.{is_sign, is_blank, is_digit, begins_with_digit, side_named, is_king_letter};
ghost use Rattle.dw_board.specs.FenTokens.{number_named, tokens_from};

use crate::board::Board;
use crate::fen::fault::{FenFault, FenFaultKind};
use crate::fen::numbers::{digits_at, square_named};
use crate::fen::read::MAX_FEN;
use crate::piece::Side;
use crate::square::Square;

/// A text, and the place up to which it has been read. No blank stands at that place.
#[derive(Drop)]
pub(super) struct Tokens<'a> {
    text: &'a [u8],
    at: usize,
    ghost inside: { at ≤ length text.now },
    ghost short: { length text.now ≤ 1024 },
    ghost at_token: { begins_with_blank (drop at text.now) ≡ false },
}

impl<'a> Tokens<'a> {
    ghost use Rattle.dw_board.specs.inner.FenReader.{tokens_of, end_of, left_of};
    ghost use Rattle.dw_board.specs.FenTokens.{place_of, first_is, first_named, is_empty};

    /// Starts at the first token of a text, which must be of at most `MAX_FEN` bytes.
    pub(super) fn new(text: &'a [u8]) -> Tokens<'a>
        requires { length text.now ≤ MAX_FEN }
        ensures tokens { tokens_of result ≡ tokens_from 1 text.entry.now }
        ensures end { end_of result ≡ length text.entry.now + 1 }
    {
        Tokens {
            text,
            at: past_blanks(text, 0),
        }
    }

    /// Returns the place of the next token, or the one after the text.
    pub(super) fn place(&self) -> u16
        ensures { result ≡ place_of (tokens_of self.now) (end_of self.now) }
    {
        self.at as u16 + 1
    }

    /// Returns the fault at the place of the next token.
    pub(super) fn fault(&self, what: FenFaultKind) -> FenFault
        ensures { result ≡ (record { what = what; place = place_of (tokens_of self.now) (end_of self.now) }) }
    {
        FenFault {
            what,
            place: self.place(),
        }
    }

    /// Returns whether no token is left.
    pub(super) fn is_at_end(&self) -> bool
        ensures { result ≡ is_empty (tokens_of self.now) }
    {
        self.at == self.text.len()
    }

    /// Returns the next byte, if there is one.
    fn byte(&self) -> Option<u8>
        ensures { result ≡ slice_get self.now.text.now self.now.at }
    {
        self.text.get(self.at).copied()
    }

    /// Skips a number of bytes, and the blanks after them.
    fn pass(&mut self, count: usize)
        requires { self.old.at + count ≤ length self.old.text.now }
        ensures tokens { tokens_of self.new ≡ tokens_from (self.old.at + count + 1)
            (drop (self.old.at + count) self.old.text.now) }
        ensures end { end_of self.new ≡ end_of self.old }
    {
        self.at = past_blanks(self.text, self.at + count);
    }

    /// Returns whether this sign is the next token.
    pub(super) fn stands(&self, sign: u8) -> bool
        requires { IsSignByte sign }
        ensures { result ≡ first_is (is_sign sign) (tokens_of self.now) }
    {
        self.byte() == Some(sign)
    }

    /// Takes the next token if it is this sign, and returns whether it was. A sign must be no digit and no blank.
    pub(super) fn take(&mut self, sign: u8) -> bool
        requires { IsSignByte sign }
        ensures taken { result ≡ first_is (is_sign sign) (tokens_of self.old) }
        ensures left { tokens_of self.new ≡ left_of result (tokens_of self.old) }
        ensures end { end_of self.new ≡ end_of self.old }
    {
        let stands = self.stands(sign);
        if stands {
            self.pass(1);
        }
        stands
    }

    /// Takes the next token if it is this letter in either case, and returns whether it was.
    fn take_letter(&mut self, upper: u8, lower: u8) -> bool
        requires upper { IsSignByte upper }
        requires lower { IsSignByte lower }
        ensures taken { result ≡ (first_is (is_sign upper) (tokens_of self.old)
            || first_is (is_sign lower) (tokens_of self.old)) }
        ensures left { tokens_of self.new ≡ left_of result (tokens_of self.old) }
        ensures end { end_of self.new ≡ end_of self.old }
    {
        if self.take(upper) {
            return true;
        }
        self.take(lower)
    }

    /// Takes the next token if it is a K in either case, and returns whether it was.
    #[tactic(auto, using(crate::proofs::FenTokenLemmas::first_is_king))]
    pub(super) fn take_king(&mut self) -> bool
        ensures taken { result ≡ first_is is_king_letter (tokens_of self.old) }
        ensures left { tokens_of self.new ≡ left_of result (tokens_of self.old) }
        ensures end { end_of self.new ≡ end_of self.old }
    {
        self.take_letter(b'K', b'k')
    }

    /// Takes the next token if it names a side, and returns the side.
    pub(super) fn take_side(&mut self) -> Option<Side>
        ensures taken { result ≡ first_named side_named (tokens_of self.old) }
        ensures left { tokens_of self.new ≡ left_of (is_some result) (tokens_of self.old) }
        ensures end { end_of self.new ≡ end_of self.old }
    {
        if self.take_letter(b'W', b'w') {
            return Some(Side::White);
        }
        if self.take_letter(b'B', b'b') {
            return Some(Side::Black);
        }
        None
    }

    /// Takes the next token if it is the number of a square, and returns the square.
    pub(super) fn take_square<B: Board>(&mut self) -> Option<Square<B>>
        ensures taken { result ≡ first_named (number_named B.geometry) (tokens_of self.old) }
        ensures left { tokens_of self.new ≡ left_of (is_some result) (tokens_of self.old) }
        ensures end { end_of self.new ≡ end_of self.old }
    {
        let digits = digits_at(&self.text[self.at..]);
        let square = square_named(&self.text[self.at..self.at + digits])?;
        self.pass(digits);
        Some(square)
    }
}

/// Returns the first place from this one on that is not at a blank.
fn past_blanks(text: &[u8], from: usize) -> usize
    requires { from ≤ length text.now }
    ensures low { from ≤ result }
    ensures high { result ≤ length text.now }
    ensures at_token { begins_with_blank (drop result text.now) ≡ false }
    ensures same { tokens_from (result + 1) (drop result text.now) ≡ tokens_from (from + 1) (drop from text.now) }
{
    let mut at = from;
    'blanks: while at < text.len() && matches!(text[at], b' ' | b'\t') {
        at += 1;
    }
    at
}
