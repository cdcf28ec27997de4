//! Laws of the definitions, each the contract of a function that does nothing.
ghost use Rattle.dw_notation.specs.Problems.{TextsHaveProblems, EndedComeFirst};
ghost use Rattle.dw_notation.specs.TagLaws.{TextsOfTagsSay, OneTagAtFront};
ghost use Rattle.dw_notation.specs.TextLaws.{MovesHaveTexts, EndsTell, LinesHaveTexts};
ghost use Rattle.dw_notation.specs.MoveReadingLaws.{NamesOneThing, HasOneAnswer, WrittenMoveIsNamed, WrittenMoveIsRead};

/// Each text has exactly one list of problems, whether or not more bytes may come.
pub fn texts_have_problems()
    ensures { TextsHaveProblems }
{
    dw_board::laws::reading_is_grammar();
}

/// Each text of tags has exactly one list of problems before they are numbered. A byte-order mark is a byte like any
/// other there.
pub fn texts_of_tags_say()
    ensures { TextsOfTagsSay }
{
    dw_board::laws::reading_is_grammar();
}

/// Each text begins with one whole tag, which `read_tag` returns, or with none.
pub fn one_tag_at_front()
    ensures { OneTagAtFront }
{}

/// The problems that end in a text come first among those of each text that begins so, under the same numbers.
pub fn ended_come_first()
    ensures { EndedComeFirst }
{
    dw_board::laws::reading_is_grammar();
}

/// Each legal move of a position has a text, and only one; different moves have different texts.
pub fn moves_have_texts()
    ensures { MovesHaveTexts }
{
    dw_moves::laws::moves_in_order();
    dw_moves::laws::path_tells();
    dw_moves::laws::one_best();
    dw_moves::laws::moves_have_keys();
    dw_moves::laws::legal_moves_take();
}

/// A quiet move, and a capture of one piece, are always written by their ends: no other legal move shares them. So is
/// each other capture whose ends no other one shares.
pub fn ends_tell()
    ensures { EndsTell }
{
    dw_moves::laws::moves_in_order();
    dw_moves::laws::path_tells();
    dw_moves::laws::one_best();
    dw_moves::laws::moves_have_keys();
    dw_moves::laws::legal_moves_take();
}

/// Moves that can be played one after another have a text as a line, and only one.
pub fn lines_have_texts()
    ensures { LinesHaveTexts }
{
    moves_have_texts();
}

/// The text of a move names one thing at most, and so it is read in one way, if memory is not refused.
pub fn texts_have_one_answer()
    ensures named { NamesOneThing }
    ensures answer { HasOneAnswer }
{}

/// The written text of a legal move is read as that move, if memory is not refused.
pub fn written_moves_are_read()
    ensures named { WrittenMoveIsNamed }
    ensures read { WrittenMoveIsRead }
{
    dw_moves::laws::path_tells();
    dw_moves::laws::one_best();
    dw_moves::laws::moves_have_keys();
    dw_moves::laws::legal_moves_take();
}
