//! The automaton that reads a PDN text: its states, and the effect of the next byte.
//!
//! Outside a section bytes are skipped up to a bracket that opens a tag. A brace opens a comment, and the next closing
//! brace ends it. A section is a row of tags with only blanks and line ends between them. A tag stands in one line: a
//! name of letters, digits and underscores, then a value in quotation marks, with blanks around them. Any other tag is
//! unclosed and takes the rest of its line. In a value a backslash escapes a quotation mark or a backslash; before any
//! other byte it stands for itself.
ghost use Rattle.std.specs.Prelude.{◌≡◌, ◌≤◌, length, take, true};
ghost use Rattle.std.specs.List.{list_all, position};
ghost use Rattle.dw_notation.specs.inner.Sections.{transition, broken_by};
ghost use Rattle.dw_notation.specs.inner.Tags.{opens, closes, passes};

use crate::bytes::{ends_line, is_blank, is_name_byte, is_space};

/// A state of the automaton: a place in a text of tags.
#[derive(Clone, Copy)]
pub(crate) enum State {
    Outside,
    Comment,
    /// After a tag of a section.
    Between,
    BeforeName,
    InName,
    BehindName,
    InValue,
    /// After a backslash in a value.
    Escaped,
    BehindValue,
    /// In the line of an unclosed tag, after the byte that broke it.
    Rest,
}

/// The effect of a byte on a section.
#[derive(Clone, Copy)]
pub(crate) enum Action {
    /// It is no part of a section.
    Keep,
    /// It opens a section.
    Open,
    /// It counts to the section, and does nothing else.
    Count,
    AddName(u8),
    /// The name is read, and a value opens.
    OpenValue,
    AddValue(u8),
    /// A backslash and this byte belong to the value.
    AddBoth(u8),
    /// The tag ends.
    Close,
    /// The tag is unclosed.
    Break,
    /// The tag is unclosed, and its line ends.
    EndLine,
    NextTag,
    /// The section ends.
    End,
}

/// The next state, and the effect of a byte.
#[derive(Clone, Copy)]
pub(crate) struct Transition {
    pub(crate) state: State,
    pub(crate) action: Action,
}

fn at(state: State, action: Action) -> Transition
    ensures { result ≡ record { state = state; action = action } }
{
    Transition { state, action }
}

/// Returns the transition by a byte that has no place in a tag.
fn broken_by(byte: u8) -> Transition
    ensures { result ≡ broken_by byte }
{
    if ends_line(byte) {
        at(State::Between, Action::EndLine)
    } else {
        at(State::Rest, Action::Break)
    }
}

fn step_outside(byte: u8) -> Transition
    ensures { result ≡ transition State.Outside byte }
{
    match byte {
        b'[' => at(State::BeforeName, Action::Open),
        b'{' => at(State::Comment, Action::Keep),
        _ => at(State::Outside, Action::Keep),
    }
}

fn step_comment(byte: u8) -> Transition
    ensures { result ≡ transition State.Comment byte }
{
    if byte == b'}' {
        at(State::Outside, Action::Keep)
    } else {
        at(State::Comment, Action::Keep)
    }
}

fn step_between(byte: u8) -> Transition
    ensures { result ≡ transition State.Between byte }
{
    if byte == b'[' {
        at(State::BeforeName, Action::NextTag)
    } else if is_space(byte) {
        at(State::Between, Action::Count)
    } else if byte == b'{' {
        at(State::Comment, Action::End)
    } else {
        at(State::Outside, Action::End)
    }
}

fn step_before_name(byte: u8) -> Transition
    ensures { result ≡ transition State.BeforeName byte }
{
    if is_blank(byte) {
        at(State::BeforeName, Action::Count)
    } else if is_name_byte(byte) {
        at(State::InName, Action::AddName(byte))
    } else {
        broken_by(byte)
    }
}

fn step_in_name(byte: u8) -> Transition
    ensures { result ≡ transition State.InName byte }
{
    if is_name_byte(byte) {
        at(State::InName, Action::AddName(byte))
    } else if is_blank(byte) {
        at(State::BehindName, Action::Count)
    } else if byte == b'"' {
        at(State::InValue, Action::OpenValue)
    } else {
        broken_by(byte)
    }
}

fn step_behind_name(byte: u8) -> Transition
    ensures { result ≡ transition State.BehindName byte }
{
    if is_blank(byte) {
        at(State::BehindName, Action::Count)
    } else if byte == b'"' {
        at(State::InValue, Action::OpenValue)
    } else {
        broken_by(byte)
    }
}

fn step_in_value(byte: u8) -> Transition
    ensures { result ≡ transition State.InValue byte }
{
    if byte == b'"' {
        at(State::BehindValue, Action::Count)
    } else if byte == b'\\' {
        at(State::Escaped, Action::Count)
    } else if ends_line(byte) {
        at(State::Between, Action::EndLine)
    } else {
        at(State::InValue, Action::AddValue(byte))
    }
}

fn step_escaped(byte: u8) -> Transition
    ensures { result ≡ transition State.Escaped byte }
{
    if byte == b'"' || byte == b'\\' {
        at(State::InValue, Action::AddValue(byte))
    } else if ends_line(byte) {
        at(State::Between, Action::EndLine)
    } else {
        at(State::InValue, Action::AddBoth(byte))
    }
}

fn step_behind_value(byte: u8) -> Transition
    ensures { result ≡ transition State.BehindValue byte }
{
    if is_blank(byte) {
        at(State::BehindValue, Action::Count)
    } else if byte == b']' {
        at(State::Between, Action::Close)
    } else {
        broken_by(byte)
    }
}

fn step_rest(byte: u8) -> Transition
    ensures { result ≡ transition State.Rest byte }
{
    if ends_line(byte) {
        at(State::Between, Action::EndLine)
    } else {
        at(State::Rest, Action::Count)
    }
}

/// Returns the place of the first byte that opens a tag or a comment.
fn opening_at(bytes: &[u8]) -> Option<usize>
    ensures { result ≡ position opens bytes.now }
{
    bytes.iter().position(|byte| *byte == b'[' || *byte == b'{')
}

/// Returns the place of the first byte that closes a comment.
fn closing_at(bytes: &[u8]) -> Option<usize>
    ensures { result ≡ position closes bytes.now }
{
    bytes.iter().position(|byte| *byte == b'}')
}

impl State {
    /// Returns a number of first bytes that change nothing in this state, and may be passed over at once.
    pub(crate) fn passed(self, bytes: &[u8]) -> usize
        ensures within { result ≤ length bytes.now }
        ensures passed { list_all (passes self) (take result bytes.now) ≡ true }
    {
        match self {
            State::Outside => opening_at(bytes).unwrap_or(bytes.len()),
            State::Comment => closing_at(bytes).unwrap_or(bytes.len()),
            _ => 0,
        }
    }

    /// Returns the next state, and the effect of the byte.
    #[inline(always)]
    pub(crate) fn transition(self, byte: u8) -> Transition
        ensures { result ≡ transition self byte }
    {
        match self {
            State::Outside => step_outside(byte),
            State::Comment => step_comment(byte),
            State::Between => step_between(byte),
            State::BeforeName => step_before_name(byte),
            State::InName => step_in_name(byte),
            State::BehindName => step_behind_name(byte),
            State::InValue => step_in_value(byte),
            State::Escaped => step_escaped(byte),
            State::BehindValue => step_behind_value(byte),
            State::Rest => step_rest(byte),
        }
    }
}
