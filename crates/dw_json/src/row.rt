//! Rows, and the members that are numbers, texts, and arrays of texts.
ghost use Rattle.std.specs.Prelude.{◌≡◌, ◌++◌, ◌∷◌, [], List, map, IfOk, OnOk};
ghost use Rattle.std.specs.String.{string_bytes};
ghost use Rattle.json.specs.Json.{array, boolean, string};
ghost use Rattle.json.specs.Print.{print};
ghost use Rattle.dw_json.specs.Rows.{Member, count, counts, items_of, pairs, row as row_of, texts};
ghost use Rattle.dw_json.specs.Writing.{IsBegun, Writes, WritesMembers};
ghost use Rattle.json.specs.Tree.{json_tokens};

use json::Writer;
use std::alloc::{AllocError, Global};

/// Begins a row, which has no member yet.
pub fn begin_row(alloc: Global) -> Result<Writer, AllocError>
    ensures { IfOk result (λ row. IsBegun [] row) }
{
    let mut row = Writer::new(Vec::new(alloc));
    row.begin_object()?;
    Ok(row)
}

/// Ends a row, and returns its line, with a line feed at the end.
pub fn end_row(mut row: Writer) -> Result<String, AllocError>
    ensures { (members : List Member) → IsBegun members row → IfOk result (λ line. string_bytes line ≡ row_of members) }
{
    row.end_object()?;
    let mut line = text_of(row)?;
    line.push_str("\n")?;
    Ok(line)
}

/// Returns the text that was written.
fn text_of(row: Writer) -> Result<String, AllocError>
    ensures { IfOk result (λ text. string_bytes text ≡ row.before ++ print row.tokens) }
{
    match String::from_utf8(row.into_inner()) {
        Ok(text) => Ok(text),
        Err(_) => Err(AllocError),
    }
}

/// Writes a member with a number.
pub fn put_number(row: &mut Writer, name: &str, number: u64) -> Result<(), AllocError>
    ensures { OnOk result (WritesMembers ((name.now, count number) ∷ []) row.old row.new) }
{
    row.key(name)?;
    row.u64(number)
}

/// Writes a member with a text.
pub fn put_text(row: &mut Writer, name: &str, text: &str) -> Result<(), AllocError>
    ensures { OnOk result (WritesMembers ((name.now, string text.now) ∷ []) row.old row.new) }
{
    row.key(name)?;
    row.string(text)
}

/// Writes a member that is true or false.
pub fn put_flag(row: &mut Writer, name: &str, flag: bool) -> Result<(), AllocError>
    ensures { OnOk result (WritesMembers ((name.now, boolean flag) ∷ []) row.old row.new) }
{
    row.key(name)?;
    row.boolean(flag)
}

/// Writes a member with an array of texts.
pub fn put_texts(row: &mut Writer, name: &str, all: &[String]) -> Result<(), AllocError>
    ensures { OnOk result (WritesMembers ((name.now, texts (map string_bytes all.now)) ∷ []) row.old row.new) }
{
    row.key(name)?;
    row.begin_array()?;
    'texts: for text in all {
        row.string(text.as_str())?;
    }
    row.end_array()
}

/// Writes a member with an array of pairs of texts.
pub fn put_pairs(row: &mut Writer, name: &str, all: &[(String, String)]) -> Result<(), AllocError>
    ensures { OnOk result (WritesMembers
        ((name.now, pairs (map (λ pair. (string_bytes pair.0, string_bytes pair.1)) all.now)) ∷ []) row.old row.new) }
{
    row.key(name)?;
    row.begin_array()?;
    'pairs: for pair in all {
        put_pair(row, pair)?;
    }
    row.end_array()
}

/// Writes a pair of texts.
fn put_pair(row: &mut Writer, pair: &(String, String)) -> Result<(), AllocError>
    ensures { OnOk result (Writes
        (json_tokens (texts (string_bytes pair.now.0 ∷ string_bytes pair.now.1 ∷ []))) row.old row.new) }
{
    row.begin_array()?;
    row.string(pair.0.as_str())?;
    row.string(pair.1.as_str())?;
    row.end_array()
}

/// Writes a member with an array of pairs of a text and a number.
pub fn put_counts(row: &mut Writer, name: &str, all: &[(String, u8)]) -> Result<(), AllocError>
    ensures { OnOk result (WritesMembers
        ((name.now, counts (map (λ pair. (string_bytes pair.0, pair.1)) all.now)) ∷ []) row.old row.new) }
{
    row.key(name)?;
    row.begin_array()?;
    'pairs: for pair in all {
        put_count(row, pair)?;
    }
    row.end_array()
}

/// Writes a pair of a text and a number.
fn put_count(row: &mut Writer, pair: &(String, u8)) -> Result<(), AllocError>
    ensures { OnOk result (Writes
        (json_tokens (array (items_of (string (string_bytes pair.now.0) ∷ count pair.now.1 ∷ [])))) row.old row.new) }
{
    row.begin_array()?;
    row.string(pair.0.as_str())?;
    row.u64(pair.1.into())?;
    row.end_array()
}
