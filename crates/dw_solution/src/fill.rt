//! Words in lines of at most 79 bytes.
ghost use Rattle.std.specs.Prelude.{◌≡◌, ◌+◌, ◌≤◌, ◌++◌, ℕ, List, length, drop};
ghost use Rattle.dw_solution.specs.Movetext.{filled};
ghost use Rattle.dw_solution.specs.inner.Feeds.{feeding, IsUnbroken, AreUnbroken};

use crate::movetext::MAX_COLUMN;

/// Puts a blank in place of each line feed, unless the word after it would end after the 79th byte of its line.
pub(crate) fn fill(text: &mut [u8])
    ensures { (w : List ℕ) (words : List (List ℕ)) → IsUnbroken w → AreUnbroken words
        → text.old ≡ w ++ feeding words → text.new ≡ w ++ filled (length w) words }
{
    let mut line = 0;
    let mut feed = next_feed(text, 0);
    'feeds: while feed < text.len() {
        let end = next_feed(text, feed + 1);
        if end - line <= MAX_COLUMN {
            text[feed] = b' ';
        } else {
            line = feed + 1;
        }
        feed = end;
    }
}

/// Returns the place of the first line feed from a place on, or the end.
fn next_feed(text: &[u8], from: usize) -> usize
    requires { from ≤ length text.now }
    ensures low { from ≤ result }
    ensures within { result ≤ length text.now }
    ensures feed { (w : List ℕ) (words : List (List ℕ)) → IsUnbroken w → drop from text.now ≡ w ++ feeding words
        → result ≡ from + length w }
{
    let mut place = from;
    'bytes: while place < text.len() && text[place] != b'\n' {
        place += 1;
    }
    place
}
