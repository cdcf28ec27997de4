//! Laws of tokens, each the contract of a function that does nothing.
ghost use Rattle.dw_list.specs.TokenLaws.{WrittenIsToken, OneLine, TokensHaveNoFault, Version1Keeps};

/// The written token of a line is a token of it.
pub fn written_is_token()
    ensures { WrittenIsToken }
{}

/// A text is a token of at most one line.
pub fn one_line()
    ensures { OneLine }
{}

/// A token has no fault.
pub fn tokens_have_no_fault()
    ensures { TokensHaveNoFault }
{}

/// On the board of 10 rows a token of version 1 means the same as the token of version 2 with the same moves.
pub fn version_1_keeps()
    ensures { Version1Keeps }
{}
