//! The choices that a user names by a word: the board, the memo, the language of a page, and its solutions and tries.
ghost use Rattle.std.specs.Prelude.{◌≡◌};
ghost use Rattle.std.specs.Option.{option_copied};

/// The boards that the programs play on.
#[derive(Clone, Copy, Debug, PartialEq, Eq)]
pub enum BoardSize {
    /// 10 by 10, with 50 squares.
    Ten,
    /// 8 by 8, with 32 squares.
    Eight,
}

impl BoardSize {
    ghost use Rattle.dw_arguments.specs.Choices.{board_named};

    /// Returns the board of this number of rows: 8 if it is named, else 10.
    pub fn named(rows: Option<&str>) -> BoardSize
        ensures { result ≡ board_named (option_copied rows.entry) }
    {
        match rows {
            Some("8") => BoardSize::Eight,
            _ => BoardSize::Ten,
        }
    }
}

/// The kinds of memos for the bounds that a search finds.
#[derive(Clone, Copy, Debug, PartialEq, Eq)]
pub enum MemoKind {
    /// It keeps nothing.
    None,
    /// A cache of the positions used last, an `LruMemo`.
    Lru,
    /// A table in which many positions share one place, a `SlotMemo`.
    Slots,
    /// A table in which many positions share two places and deeper results stay, a `DeepMemo`.
    Deep,
}

impl MemoKind {
    ghost use Rattle.dw_arguments.specs.Choices.{memo_named};

    /// Returns the memo of this name: `none`, `slots` or `deep`, or else `lru`.
    pub fn named(kind: Option<&str>) -> MemoKind
        ensures { result ≡ memo_named (option_copied kind.entry) }
    {
        match kind {
            Some("none") => MemoKind::None,
            Some("slots") => MemoKind::Slots,
            Some("deep") => MemoKind::Deep,
            _ => MemoKind::Lru,
        }
    }
}

/// The languages that a page is written in.
#[derive(Clone, Copy, Debug, PartialEq, Eq)]
pub enum PageLanguage {
    English,
    Dutch,
    French,
    Russian,
}

impl PageLanguage {
    ghost use Rattle.dw_arguments.specs.Choices.{language_named};

    /// Returns the language of a name: `nl`, `fr` or `ru`, or else English.
    pub fn named(name: Option<&str>) -> PageLanguage
        ensures { result ≡ language_named (option_copied name.entry) }
    {
        match name {
            Some("nl") => PageLanguage::Dutch,
            Some("fr") => PageLanguage::French,
            Some("ru") => PageLanguage::Russian,
            _ => PageLanguage::English,
        }
    }
}

/// The place of the solutions.
#[derive(Clone, Copy, Debug, PartialEq, Eq)]
pub enum Placing {
    /// After each problem.
    After,
    /// After all problems.
    End,
    /// Nowhere.
    None,
}

impl Placing {
    ghost use Rattle.dw_arguments.specs.Choices.{placing_named};

    /// Returns the place of a name: `end` or `none`, or else after each problem.
    pub fn named(name: Option<&str>) -> Placing
        ensures { result ≡ placing_named (option_copied name.entry) }
    {
        match name {
            Some("end") => Placing::End,
            Some("none") => Placing::None,
            _ => Placing::After,
        }
    }
}

/// Which tries stand on a page.
#[derive(Clone, Copy, Debug, PartialEq, Eq)]
pub enum PageTries {
    All,
    None,
}

impl PageTries {
    ghost use Rattle.dw_arguments.specs.Choices.{tries_named};

    /// Returns the tries of a name: `none`, or else all.
    pub fn named(name: Option<&str>) -> PageTries
        ensures { result ≡ tries_named (option_copied name.entry) }
    {
        match name {
            Some("none") => PageTries::None,
            _ => PageTries::All,
        }
    }
}
