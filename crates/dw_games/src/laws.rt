//! Laws of the definitions, each the contract of a function that does nothing.
ghost use Rattle.dw_games.specs.GameLaws.{GamesSayProblems, GamesTellSections, TextsHaveGames, PrefixIsEnough};
ghost use Rattle.dw_games.specs.Laws.{OneRow, OneAnswer, OneLine, TreesArePlayed};
ghost use Rattle.dw_games.specs.Pdn.{PdnIsRead};
ghost use Rattle.dw_games.specs.Rules.{FitsOneRule, NamesOneSide};
ghost use Rattle.dw_games.specs.TagRowLaws.{OneRowOfTags, SectionsHaveTheirTags};

/// Each text has exactly one row of tokens.
pub fn one_row()
    ensures { OneRow }
{}

/// At each position a text has at most one tree and at most one first fault, and never both.
pub fn one_answer()
    ensures { OneAnswer }
{
    dw_notation::laws::texts_have_one_answer();
}

/// At each position a text is at most one written line and has at most one first fault as a line, and never both.
pub fn one_line()
    ensures { OneLine }
{
    dw_notation::laws::texts_have_one_answer();
}

/// The games of a text have its problems in the form `Pdn`, under the same numbers.
pub fn games_say_problems()
    ensures { GamesSayProblems }
{}

/// Each text has its games, and no others.
pub fn texts_have_games()
    ensures { TextsHaveGames }
{
    dw_notation::laws::texts_of_tags_say();
}

/// The tags of a game with a position are its whole section, which leaves no tag unclosed and has that position.
pub fn games_tell_sections()
    ensures { GamesTellSections }
{}

/// Each text has exactly one row of whole tags, which `read_tags` reads of it.
pub fn one_row_of_tags()
    ensures { OneRowOfTags }
{
    dw_notation::laws::one_tag_at_front();
}

/// The whole tags of a section that leaves no tag unclosed are the tags that the section has, in their order.
pub fn sections_have_their_tags()
    ensures { SectionsHaveTheirTags }
{
    dw_notation::laws::one_tag_at_front();
}

/// The kept part of a movetext is read like the whole: if it was cut, both are too large.
pub fn prefix_is_enough()
    ensures { PrefixIsEnough }
{}

/// Each path of a tree that is read at a position can be played from it, and its beginnings stand in the tree too.
pub fn trees_are_played()
    ensures { TreesArePlayed }
{}

/// No text names a legal move of a position, and one after some legal move of it.
pub fn names_one_side()
    ensures { NamesOneSide }
{
    dw_notation::laws::texts_have_one_answer();
}

/// No token fits two of the rules by which it may stand for moves at a position.
pub fn fits_one_rule()
    ensures { FitsOneRule }
{
    dw_notation::laws::texts_have_one_answer();
}

/// Play as PDN has it, without replies in parentheses, is read as play with the same paths.
pub fn pdn_is_read()
    ensures { PdnIsRead }
{}
