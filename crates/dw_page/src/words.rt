//! The words of a page, in four languages.
ghost use Rattle.std.specs.Prelude.{◌≡◌};
ghost use Rattle.dw_page.specs.Words as of;

use dw_board::Side;

/// The language of a page.
#[derive(Clone, Copy, Debug, PartialEq, Eq)]
pub enum Language {
    English,
    Dutch,
    French,
    Russian,
}

/// The phrases about the win or the lines.
#[derive(Clone, Copy, Debug, PartialEq, Eq)]
pub enum Phrase {
    /// In front of the first move of a sound problem.
    Sound,
    /// In front of the line with a choice.
    Dual,
    /// In front of several first moves that win.
    Cooked,
    /// In front of the number of moves in which there is a win already.
    Shorter,
    /// In front of the number of moves within which there is no win.
    NoWin,
    /// In front of the tries.
    Tries,
    /// In front of the solution's moves.
    Solution,
    /// In front of all solutions.
    Solutions,
    /// In place of the lines that are left out.
    More,
    /// In front of the reason why a problem is refused.
    Refused,
}

impl Language {
    /// Returns its language tag, as the `lang` of a page has it.
    pub fn tag(self) -> &'static str
        ensures { result.now ≡ of.tag self }
    {
        match self {
            Language::English => "en",
            Language::Dutch => "nl",
            Language::French => "fr",
            Language::Russian => "ru",
        }
    }

    /// Returns the task, up to the number of moves.
    #[tactic(auto, unfolding(crate::specs::Words::stipulation))]
    pub fn task(self, side: Side) -> &'static str
        ensures { result.now ≡ of.stipulation self side }
    {
        match (self, side) {
            (Language::English, Side::White) => "White to play and win in ",
            (Language::English, Side::Black) => "Black to play and win in ",
            (Language::Dutch, Side::White) => "Wit aan zet en wint in ",
            (Language::Dutch, Side::Black) => "Zwart aan zet en wint in ",
            (Language::French, Side::White) => "Les blancs jouent et gagnent en ",
            (Language::French, Side::Black) => "Les noirs jouent et gagnent en ",
            (Language::Russian, Side::White) => "Белые начинают и выигрывают в ",
            (Language::Russian, Side::Black) => "Чёрные начинают и выигрывают в ",
        }
    }

    /// Returns the text after a number of moves, 1 to 20: in Russian the word for moves, in the form for that number.
    #[tactic(auto, unfolding(crate::specs::Words::russian_moves))]
    pub fn moves(self, count: u8) -> &'static str
        ensures { result.now ≡ of.moves self count }
    {
        match (self, count) {
            (Language::Russian, 1) => " ход",
            (Language::Russian, 2..=4) => " хода",
            (Language::Russian, _) => " ходов",
            _ => "",
        }
    }

    /// Returns a phrase, in the form before the words that it belongs to.
    #[tactic(auto, unfolding(crate::specs::Words::phrase))]
    pub fn phrase(self, phrase: Phrase) -> &'static str
        ensures { result.now ≡ of.phrase self phrase }
    {
        match self {
            Language::English => english(phrase),
            Language::Dutch => dutch(phrase),
            Language::French => french(phrase),
            Language::Russian => russian(phrase),
        }
    }
}

#[tactic(auto, unfolding(crate::specs::Words::english))]
fn english(phrase: Phrase) -> &'static str
    ensures { result.now ≡ of.english phrase }
{
    match phrase {
        Phrase::Sound => "Sound",
        Phrase::Dual => "Dual",
        Phrase::Cooked => "Cooked",
        Phrase::Shorter => "wins in ",
        Phrase::NoWin => "No win in ",
        Phrase::Tries => "Tries",
        Phrase::Solution => "Solution",
        Phrase::Solutions => "Solutions",
        Phrase::More => "more lines",
        Phrase::Refused => "Refused",
    }
}

#[tactic(auto, unfolding(crate::specs::Words::dutch))]
fn dutch(phrase: Phrase) -> &'static str
    ensures { result.now ≡ of.dutch phrase }
{
    match phrase {
        Phrase::Sound => "Correct",
        Phrase::Dual => "Dual",
        Phrase::Cooked => "Bijoplossing",
        Phrase::Shorter => "wint in ",
        Phrase::NoWin => "Geen winst in ",
        Phrase::Tries => "Schijnoplossingen",
        Phrase::Solution => "Oplossing",
        Phrase::Solutions => "Oplossingen",
        Phrase::More => "meer varianten",
        Phrase::Refused => "Geweigerd",
    }
}

#[tactic(auto, unfolding(crate::specs::Words::french))]
fn french(phrase: Phrase) -> &'static str
    ensures { result.now ≡ of.french phrase }
{
    match phrase {
        Phrase::Sound => "Correct",
        Phrase::Dual => "Dual",
        Phrase::Cooked => "Démoli",
        Phrase::Shorter => "gagne en ",
        Phrase::NoWin => "Pas de gain en ",
        Phrase::Tries => "Essais",
        Phrase::Solution => "Solution",
        Phrase::Solutions => "Solutions",
        Phrase::More => "autres variantes",
        Phrase::Refused => "Refusé",
    }
}

#[tactic(auto, unfolding(crate::specs::Words::russian))]
fn russian(phrase: Phrase) -> &'static str
    ensures { result.now ≡ of.russian phrase }
{
    match phrase {
        Phrase::Sound => "Корректно",
        Phrase::Dual => "Дуаль",
        Phrase::Cooked => "Побочное решение",
        Phrase::Shorter => "выигрыш в ",
        Phrase::NoWin => "Нет выигрыша в ",
        Phrase::Tries => "Ложные следы",
        Phrase::Solution => "Решение",
        Phrase::Solutions => "Решения",
        Phrase::More => "другие варианты",
        Phrase::Refused => "Отклонено",
    }
}
