//! The tags of a section, read from its bytes.
ghost use Rattle.std.specs.Prelude.{◌≡◌, ◌≤◌, ℕ, List, [], ◌∷◌, false, length, map, IfOk, MatchOption};
ghost use Rattle.dw_notation.specs.Tags.{is_space, values_named};
ghost use Rattle.dw_games.specs.Tokens.{begins_with};
ghost use Rattle.dw_games.specs.TagRows.{AreTags, TagText, tag_text, said_by};

use crate::class::Class;
use crate::tokens::run_of;
pub use dw_notation::tags::Tag;
use dw_notation::tags::read_tag;
use std::alloc::{AllocError, Global};

/// Returns the whole tags at the front of a section or any other text, with only spaces before and between them. By
/// `laws::one_row_of_tags` there are no others, and by `laws::sections_have_their_tags` those of a section are its own,
/// if it leaves none unclosed.
pub fn read_tags<'t>(alloc: Global, section: &'t [u8]) -> Result<Vec<Tag<'t>>, AllocError>
    ensures { IfOk result (λ tags. AreTags section.now (map tag_text tags.items)) }
{
    let mut tags = Vec::new(alloc);
    let mut rest = past_spaces(section);
    'tags: while let Some(tag) = read_tag(alloc, rest)? {
        let (_, behind) = rest.split_at(tag.text.len());
        rest = past_spaces(behind);
        tags.push(tag)?;
    }
    Ok(tags)
}

/// Returns the value of the first of these tags that has this name, without regard to the case of letters.
pub fn value_named<'v>(tags: &'v [Tag<'_>], name: &[u8]) -> Option<&'v [u8]>
    ensures { MatchOption result (values_named name.now (said_by tags.now) ≡ [])
        (λ value. (others : List (List ℕ)) × (values_named name.now (said_by tags.now) ≡ value.now ∷ others)) }
{
    'tags: for tag in tags {
        if tag.is_named(name) {
            return Some(tag.value.as_slice());
        }
    }
    None
}

/// Returns the rest of a text after the spaces at its front.
fn past_spaces(text: &[u8]) -> &[u8]
    ensures no_space { begins_with is_space result.now ≡ false }
    ensures not_longer { length result.now ≤ length text.now }
    ensures tags { (tags : List TagText) → AreTags result.now tags → AreTags text.now tags }
{
    let (_, rest) = text.split_at(run_of(text, Class::Space));
    rest
}
