//! Texts from outside, as they stand in a page, and the page's own texts.
ghost use Rattle.std.specs.Prelude.{◌≡◌, ◌++◌, ◌∷◌, [], OnOk, IfOk, MatchOption, encode_utf8};
ghost use Rattle.std.specs.List.{flat_map};
ghost use Rattle.std.specs.String.{string_bytes};
ghost use Rattle.dw_page.specs.Escaping.{shown, printable, stands_for, shown_bytes};

use std::alloc::{AllocError, Global};

/// Appends input bytes as text of a page. Bytes that are not UTF-8 are read as Latin-1, a control character becomes a
/// blank, and characters with a meaning in HTML are escaped.
pub fn push_bytes(alloc: Global, page: &mut Vec<u8>, bytes: &[u8]) -> Result<(), AllocError>
    ensures { OnOk result (page.new.items ≡ page.old.items ++ shown_bytes bytes.now) }
{
    match str::from_utf8(bytes) {
        Ok(text) => push_text(page, text.as_bytes()),
        Err(_) => push_text(page, latin(alloc, bytes)?.as_str().as_bytes()),
    }
}

/// Appends the page's own texts one after another, without escapes.
pub(crate) fn push_all(alloc: Global, page: &mut Vec<u8>, texts: &[&str]) -> Result<(), AllocError>
    ensures { OnOk result (page.new.items ≡ page.old.items ++ flat_map (λ t. t.now) texts.now) }
{
    let text = texts.concat(alloc)?;
    page.extend_from_slice(text.as_str().as_bytes())?;
    Ok(())
}

/// Appends a text in UTF-8, escaped. A control character becomes a blank.
pub fn push_text(page: &mut Vec<u8>, text: &[u8]) -> Result<(), AllocError>
    ensures { OnOk result (page.new.items ≡ page.old.items ++ stands_for text.now) }
{
    'bytes: for byte in text {
        push_byte(page, printable(*byte))?;
    }
    Ok(())
}

/// Returns the text of bytes that are read as Latin-1.
fn latin(alloc: Global, bytes: &[u8]) -> Result<String, AllocError>
    ensures { IfOk result (λ text. string_bytes text ≡ flat_map encode_utf8 bytes.now) }
{
    let mut text = String::new(alloc);
    'bytes: for byte in bytes {
        text.push(char::from(*byte))?;
    }
    Ok(text)
}

/// Returns a byte, or a blank for a control character.
fn printable(byte: u8) -> u8
    ensures { result ≡ printable byte }
{
    if byte < 32 || byte == 127 { b' ' } else { byte }
}

/// Appends a byte, escaped.
fn push_byte(page: &mut Vec<u8>, byte: u8) -> Result<(), AllocError>
    ensures { OnOk result (page.new.items ≡ page.old.items ++ shown byte) }
{
    match entity(byte) {
        Some(name) => page.extend_from_slice(name.as_bytes())?,
        None => page.push(byte)?,
    }
    Ok(())
}

/// Returns the entity of a byte, if it needs one.
fn entity(byte: u8) -> Option<&'static str>
    ensures { MatchOption result (shown byte ≡ byte ∷ []) (λ name. shown byte ≡ name.now) }
{
    match byte {
        b'<' => Some("&lt;"),
        b'>' => Some("&gt;"),
        b'&' => Some("&amp;"),
        b'"' => Some("&quot;"),
        b'\'' => Some("&#39;"),
        _ => None,
    }
}
