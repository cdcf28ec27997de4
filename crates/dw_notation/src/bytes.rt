//! Classes of bytes in texts of tags.
ghost use Rattle.std.specs.Prelude.{◌≡◌};
ghost use Rattle.dw_board.specs.FenTokens.{is_blank};
ghost use Rattle.dw_notation.specs.Tags.{ends_line, is_name_byte, is_space};

/// Returns whether a byte is a space or a tab.
pub fn is_blank(byte: u8) -> bool
    ensures { result ≡ is_blank byte }
{
    byte == b' ' || byte == b'\t'
}

/// Returns whether a byte ends a line: a line feed or a carriage return.
pub fn ends_line(byte: u8) -> bool
    ensures { result ≡ ends_line byte }
{
    byte == b'\n' || byte == b'\r'
}

/// Returns whether a byte may stand between tags: it is blank, or ends a line.
pub fn is_space(byte: u8) -> bool
    ensures { result ≡ is_space byte }
{
    is_blank(byte) || ends_line(byte)
}

/// Returns whether a byte may stand in a tag's name: an ASCII letter, a digit or an underscore.
pub fn is_name_byte(byte: u8) -> bool
    ensures { result ≡ is_name_byte byte }
{
    byte.is_ascii_alphanumeric() || byte == b'_'
}
