//! The tokens of a movetext, read from the front.
ghost use Rattle.std.specs.Prelude.{◌≡◌, ◌+◌, ◌≤◌, ◌<◌, ℕ, List, [], ◌∷◌, true, false, length, take, drop, MatchOption};
ghost use Rattle.std.specs.Prelude.{get_or, ◌==◌};
ghost use Rattle.std.specs.Prelude.{IfSome};
ghost use Rattle.dw_board.specs.FenTokens.{is_digit};
ghost use Rattle.dw_games.specs.Tokens as of;
ghost use Rattle.dw_games.specs.Tokens.{IsRun, IsToken, AreTokens, begins_mark, begins_with, behind as rest_behind};
ghost use Rattle.dw_games.specs.inner.Classes.{begins_between, test_of};

use crate::class::Class;
use crate::fault::{MovetextFault, MovetextFaultKind};
use crate::movetext::MAX_MOVETEXT;
use crate::signs::{Signs, row_of};
use dw_notation::bytes::{ends_line, is_space};

/// The kinds of tokens of a movetext.
#[derive(Clone, Copy, Debug, PartialEq, Eq)]
pub enum TokenKind {
    /// `{` up to the first `}`; `;` to the end of the line, but not before a move number and a move; and `%` too if it
    /// begins the line.
    Comment,
    /// The number of a move, or a mark: `1.`, `1)`, `...`, `$5`, `!?`, `+`, `W+`, `x`. It is passed over.
    Passed,
    /// A move or a result, or bytes that are written like these and are neither.
    Written,
    /// `(`, which begins a variation.
    Opens,
    /// `)`, which ends one.
    Closes,
    /// A comment without its `}`, or `$` without digits.
    CutOff,
    /// A byte that begins no token.
    Unknown,
}

/// A token: its kind, its bytes, and the place of the first of them in the text, counted from 1.
#[derive(Clone, Copy)]
pub(crate) struct Token<'a> {
    pub(crate) what: TokenKind,
    pub(crate) text: &'a [u8],
    pub(crate) place: u32,
}

impl<'a> Token<'a> {
    /// Returns the fault at its place.
    pub(crate) fn fault(&self, what: MovetextFaultKind) -> MovetextFault
        ensures { result ≡ MovetextFault.Refused what self.now.place }
    {
        MovetextFault::Refused {
            what,
            place: self.place,
        }
    }
}

/// A text, the place in it up to which it is read, and whether a line begins there.
#[derive(Drop)]
pub(crate) struct Tokens<'a> {
    text: &'a [u8],
    at: usize,
    fresh: bool,
    ghost inside: { at ≤ length text.now },
    ghost small: { length text.now ≤ 1048576 },
}

impl<'a> Tokens<'a> {
    ghost use Rattle.dw_games.specs.inner.Ahead.{AreAhead, bytes_ahead, end_of, token_value};

    /// Returns the tokens of a text.
    pub(crate) fn new(text: &'a [u8]) -> Tokens<'a>
        requires { length text.now ≤ MAX_MOVETEXT }
        ensures tokens { (tokens : _) (rest : _) → AreAhead result tokens rest
            → AreTokens 1 true text.entry.now tokens rest }
        ensures end { end_of result ≡ length text.entry.now + 1 }
    {
        Tokens {
            text,
            at: 0,
            fresh: true,
        }
    }

    /// Returns the next token, or `None` if blanks alone are left.
    pub(crate) fn next(&mut self) -> Option<Token<'a>>
        ensures token { MatchOption result (AreAhead self.old [] [])
            (λ t. (tokens : _) (rest : _) → AreAhead self.new tokens rest
            → AreAhead self.old (token_value t ∷ tokens) rest) }
        ensures shorter { IfSome result (λ _. length (bytes_ahead self.new) < length (bytes_ahead self.old)) }
        ensures end { end_of self.new ≡ end_of self.old }
    {
        self.pass_blanks();
        let (_, rest) = self.text.split_at(self.at);
        let (first, behind) = rest.split_first()?;
        let (what, more) = token_of(rest, *first, behind, self.fresh);
        let (text, _) = rest.split_at(1 + more);
        let place = self.at as u32 + 1;
        self.at += 1 + more;
        self.fresh = false;
        Some(Token { what, text, place })
    }

    /// Goes past the blanks that stand next.
    fn pass_blanks(&mut self)
        ensures tokens { (tokens : _) (rest : _) → AreAhead self.new tokens rest
            → AreAhead self.old tokens rest }
        ensures no_blank { begins_between (bytes_ahead self.new) ≡ false }
        ensures not_longer { length (bytes_ahead self.new) ≤ length (bytes_ahead self.old) }
        ensures same { self.new.text ≡ self.old.text }
    {
        let (at, fresh) = past_blanks(self.text, self.at, self.fresh);
        self.at = at;
        self.fresh = fresh;
    }
}

/// Returns the next place without a blank, and whether a line begins there, given whether one begins here.
fn past_blanks(text: &[u8], from: usize, begins: bool) -> (usize, bool)
    requires { from ≤ length text.now }
    ensures low { from ≤ result.0 }
    ensures high { result.0 ≤ length text.now }
    ensures no_blank { begins_between (drop result.0 text.now) ≡ false }
    ensures tokens { (tokens : _) (rest : _) → AreTokens (result.0 + 1) result.1 (drop result.0 text.now) tokens rest
        → AreTokens (from + 1) begins (drop from text.now) tokens rest }
{
    let mut at = from;
    let mut fresh = begins;
    'blanks: while at < text.len() && is_between(text, at) {
        fresh = ends_line(text[at]);
        at += 1;
    }
    (at, fresh)
}

/// Returns whether the byte at a place stands between tokens: a space, the end of a line, a comma, or a semicolon
/// before a move number and a move.
fn is_between(text: &[u8], at: usize) -> bool
    requires { at < length text.now }
    ensures { result ≡ of.is_between (get_or text.now at 0) (drop (at + 1) text.now) }
{
    let byte = text[at];
    let (_, rest) = text.split_at(at + 1);
    is_space(byte) || byte == b',' || byte == b';' && numbers_move(rest)
}

/// Returns whether a text begins with blanks, the number of a move, blanks, and a move or a parenthesis.
fn numbers_move(text: &[u8]) -> bool
    ensures { result ≡ of.numbers_move text.now }
{
    let number = past(text, Class::Blank);
    let stop = past(number, Class::Digit);
    matches!(number, [b'0'..=b'9', ..]) && stops_number(stop)
}

/// Returns whether a text begins with the end of the number of a move, blanks, and a move or a parenthesis.
fn stops_number(text: &[u8]) -> bool
    ensures { result ≡ of.stops_number text.now }
{
    match text.split_first() {
        Some((b'.', rest)) => begins_move(past(past(rest, Class::Dot), Class::Blank)),
        Some((b')', rest)) => begins_move(past(rest, Class::Blank)),
        _ => false,
    }
}

/// Returns whether a text begins as a move does, or a move in parentheses.
fn begins_move(text: &[u8]) -> bool
    ensures { result ≡ of.begins_move text.now }
{
    match text {
        [b'0'..=b'9' | b'(', ..] | [b'a'..=b'h', b'1'..=b'8', ..] => true,
        _ => false,
    }
}

/// Returns the rest of a text after the bytes of a class at its front.
fn past(text: &[u8], class: Class) -> &[u8]
    ensures { result.now ≡ rest_behind (test_of class) text.now }
{
    let (_, rest) = text.split_at(run_of(text, class));
    rest
}

/// Returns the token at the front of a text, given its first byte, which is no blank, and the bytes after that: the
/// token's kind, and how many of the bytes after its first belong to it.
fn token_of(text: &[u8], first: u8, behind: &[u8], fresh: bool) -> (TokenKind, usize)
    requires text { text.now ≡ first ∷ behind.now }
    requires no_blank { of.is_between first behind.now ≡ false }
    ensures within { result.1 ≤ length behind.now }
    ensures token { IsToken fresh result.0 (first ∷ take result.1 behind.now) (drop result.1 behind.now) }
{
    match first {
        b'{' => comment(behind),
        b';' => (TokenKind::Comment, run_of(behind, Class::InLine)),
        b'%' => line_comment(behind, fresh),
        b'$' => numbered_mark(behind),
        b'.' => (TokenKind::Passed, run_of(behind, Class::Dot)),
        b'(' => (TokenKind::Opens, 0),
        b')' => (TokenKind::Closes, 0),
        b'*' => (TokenKind::Written, 0),
        _ if Class::Digit.has(first) => number_or_written(first, behind),
        _ => match mark_at(text) {
            0 => (TokenKind::Unknown, 0),
            length => (TokenKind::Passed, length - 1),
        },
    }
}

/// Returns how many bytes the mark without a number at the front of a text has, or 0.
fn mark_at(text: &[u8]) -> usize
    ensures within { result ≤ length text.now }
    ensures none { result ≡ 0 → begins_mark text.now ≡ false }
    ensures mark { 0 < result → (fresh : _) → IsToken fresh TokenKind.Passed (take result text.now)
        (drop result text.now) }
{
    let row = row_of(text, Signs::Mark);
    if row > 0 {
        return row;
    }
    if is_lone_cross(text) {
        return Signs::Cross.width(text);
    }
    if has_plus(text) { 2 } else { 0 }
}

/// Returns whether a text begins with a cross, and nothing more that moves and results are written with.
fn is_lone_cross(text: &[u8]) -> bool
    ensures { result ≡ of.is_lone_cross text.now }
{
    let cross = Signs::Cross.width(text);
    let (_, rest) = text.split_at(cross);
    cross != 0 && Signs::Written.width(rest) == 0
}

/// Returns whether a text begins with a letter other than x, and a plus sign.
fn has_plus(text: &[u8]) -> bool
    ensures { result ≡ of.has_plus text.now }
{
    let Some((letter, rest)) = text.split_first() else {
        return false;
    };
    is_letter(*letter) && matches!(rest, [b'+', ..])
}

/// Returns whether a byte is an ASCII letter, but no x.
fn is_letter(byte: u8) -> bool
    ensures { result ≡ of.is_letter byte }
{
    matches!(byte, b'A'..=b'Z' | b'a'..=b'z') && byte != b'X' && byte != b'x'
}

/// Returns the kind and further length of a token that begins with `{`: a comment up to its `}`, or all bytes, cut off,
/// if there is no `}`.
fn comment(behind: &[u8]) -> (TokenKind, usize)
    ensures within { result.1 ≤ length behind.now }
    ensures token { (fresh : _) → IsToken fresh result.0 (123 ∷ take result.1 behind.now) (drop result.1 behind.now) }
{
    let length = run_of(behind, Class::Inside);
    if length < behind.len() {
        (TokenKind::Comment, length + 1)
    } else {
        (TokenKind::CutOff, length)
    }
}

/// Returns the kind and further length of a token that begins with `%`: a comment to the end of the line if a line
/// begins there, else an unknown byte.
fn line_comment(behind: &[u8], fresh: bool) -> (TokenKind, usize)
    ensures within { result.1 ≤ length behind.now }
    ensures token { IsToken fresh result.0 (37 ∷ take result.1 behind.now) (drop result.1 behind.now) }
{
    if fresh {
        (TokenKind::Comment, run_of(behind, Class::InLine))
    } else {
        (TokenKind::Unknown, 0)
    }
}

/// Returns the kind and further length of a token that begins with `$`: a mark with its digits, or one cut off if none
/// follow.
fn numbered_mark(behind: &[u8]) -> (TokenKind, usize)
    ensures within { result.1 ≤ length behind.now }
    ensures token { (fresh : _) → IsToken fresh result.0 (36 ∷ take result.1 behind.now) (drop result.1 behind.now) }
{
    let digits = run_of(behind, Class::Digit);
    if digits == 0 {
        (TokenKind::CutOff, 0)
    } else {
        (TokenKind::Passed, digits)
    }
}

/// Returns the kind and further length of a token that begins with a digit: the number of a move, that is its digits
/// and the dots or the `)` after them, or all bytes that moves and results are written with.
fn number_or_written(first: u8, behind: &[u8]) -> (TokenKind, usize)
    requires { is_digit first ≡ true }
    ensures within { result.1 ≤ length behind.now }
    ensures token { (fresh : _) → IsToken fresh result.0 (first ∷ take result.1 behind.now) (drop result.1 behind.now) }
{
    let digits = run_of(behind, Class::Digit);
    let (_, rest) = behind.split_at(digits);
    let dots = run_of(rest, Class::Dot);
    if dots > 0 {
        (TokenKind::Passed, digits + dots)
    } else if is_closed(rest) {
        (TokenKind::Passed, digits + 1)
    } else {
        (TokenKind::Written, row_of(behind, Signs::Written))
    }
}

/// Returns whether a text begins with `)`.
fn is_closed(text: &[u8]) -> bool
    ensures { result ≡ begins_with (λ byte. byte == 41) text.now }
{
    matches!(text, [b')', ..])
}

/// Returns how many bytes of a class stand at the front of a text.
pub(crate) fn run_of(text: &[u8], class: Class) -> usize
    ensures within { result ≤ length text.now }
    ensures run { IsRun (test_of class) (take result text.now) (drop result text.now) }
{
    let mut count = 0;
    'bytes: while count < text.len() && class.has(text[count]) {
        count += 1;
    }
    count
}
