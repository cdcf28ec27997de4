//! A tag of PDN, read from the front of a text.
ghost use Rattle.std.specs.Prelude.{◌≡◌, ◌≤◌, ℕ, List, [], ◌∷◌, ◌++◌, true, false, length, take, drop, MatchOption};
ghost use Rattle.std.specs.Prelude.{IfOk, IfSome, IfNone};
ghost use Rattle.std.specs.List.{list_all};
ghost use Rattle.dw_board.specs.FenTokens.{is_blank as is_blank_byte};
ghost use Rattle.dw_notation.specs.ReadTags.{NoTag, said_by_tag};
ghost use Rattle.dw_notation.specs.inner.TagReading.{begins_blank};
ghost use Rattle.dw_notation.specs.Tags.{Tag as Said, IsTag, same_name};

use crate::bytes::is_blank;
use crate::problems::pdn::automaton::{Action, State};
use std::alloc::{AllocError, Global};

/// A tag of a text: its bytes as they stand there, from the first bracket to the last, its name, and its value, in
/// which `\"` of the text is a quotation mark and `\\` a backslash.
#[derive(Drop)]
pub struct Tag<'t> {
    pub text: &'t [u8],
    pub name: &'t [u8],
    pub value: Vec<u8>,
}

impl Tag<'_> {
    /// Returns whether this is its name, without regard to the case of letters.
    pub fn is_named(&self, name: &[u8]) -> bool
        ensures { result ≡ same_name self.now.name.now name.now }
    {
        self.name.eq_ignore_ascii_case(name)
    }
}

/// Returns the whole tag that a text begins with, or `None` if it begins with none. By `laws::one_tag_at_front` it
/// begins with no other.
pub fn read_tag<'t>(alloc: Global, text: &'t [u8]) -> Result<Option<Tag<'t>>, AllocError>
    ensures some { IfOk result (λ found. IfSome found (λ tag. (more : List ℕ) × (text.now ≡ tag.text.now ++ more)
        × IsTag tag.text.now (said_by_tag tag))) }
    ensures none { IfOk result (λ found. IfNone found (NoTag text.now)) }
{
    let Some(inside) = behind_bracket(text) else {
        return Ok(None);
    };
    let mut state = State::BeforeName;
    let mut named = 0;
    let mut value = Vec::new(alloc);
    'bytes: for (i, byte) in inside.iter().enumerate() {
        let transition = state.transition(*byte);
        state = transition.state;
        match transition.action {
            Action::Count => {}
            Action::AddName(_) => named += 1,
            Action::OpenValue => value.clear(),
            Action::AddValue(byte) => value.push(byte)?,
            Action::AddBoth(byte) => {
                value.push(b'\\')?;
                value.push(byte)?;
            }
            Action::Close => {
                let (text, _) = text.split_at(i + 2);
                return Ok(Some(tag_of(text, named, value)));
            }
            _ => return Ok(None),
        }
    }
    Ok(None)
}

/// Returns the rest of a text after its first bracket, or `None` if it does not begin with one.
fn behind_bracket(text: &[u8]) -> Option<&[u8]>
    ensures { MatchOption result ((inside : List ℕ) → text.now ≡ 91 ∷ inside → ⊥)
        (λ inside. text.now ≡ 91 ∷ inside.now) }
{
    match text.split_first() {
        Some((b'[', inside)) => Some(inside),
        _ => None,
    }
}

/// Returns the tag of a text, which must be a whole tag with a name of this length, and this value.
fn tag_of<'t>(text: &'t [u8], named: usize, value: Vec<u8>) -> Tag<'t>
    requires { (said : Said) × IsTag text.now said × (length said.name ≡ named) }
    ensures text { result.text.now ≡ text.now }
    ensures said { (said : Said) → IsTag text.now said → length said.name ≡ named → said.value ≡ value.items
        → said_by_tag result ≡ said }
{
    let (_, inside) = text.split_at(1);
    let (_, behind) = inside.split_at(blanks_before(inside));
    let (name, _) = behind.split_at(named);
    Tag { text, name, value }
}

/// Returns the number of blanks at the front of a text.
fn blanks_before(text: &[u8]) -> usize
    ensures within { result ≤ length text.now }
    ensures all { list_all is_blank_byte (take result text.now) ≡ true }
    ensures ends { begins_blank (drop result text.now) ≡ false }
{
    let mut count = 0;
    'blanks: while count < text.len() && is_blank(text[count]) {
        count += 1;
    }
    count
}
