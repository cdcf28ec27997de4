//! The chosen problems, one after another.
ghost use Rattle.std.specs.Prelude.{◌≡◌, ◌<◌, ◌-◌, if◌then◌else◌, ℕ, List, false, option_map, IfOk, IfErr, IfSome};
ghost use Rattle.std.specs.Prelude.{OnOk};

use crate::desk::DeskFault;
use dw_arguments::Portion;
use dw_board::Board;
use dw_games::{Game, Games};
use dw_notation::problems::MAX_PROBLEMS;
use dw_notation::{Form, Problems, Source};
use std::alloc::Global;

/// The chosen problems of a text, in order, each as a game. A problem in a line of its own has no tags and no movetext.
#[derive(Drop)]
pub(crate) struct Chosen<'a, B: Board, S> {
    alloc: Global,
    text: Text<'a, B, S>,
    portion: Portion,
    /// The most problems of the text that are still looked at.
    left: u32,
}

impl<'a, B: Board, S: Source> Chosen<'a, B, S> {
    ghost use Rattle.dw_desk_commands.specs.Chosen.{is_in};
    ghost use Rattle.dw_desk_commands.specs.inner.Choosing.{HandsOut};
    ghost use Rattle.dw_desk_commands.specs.inner.Choosing.{AreToCome, GoesOn, HaveGames, MayBe, is_met};
    ghost use Rattle.dw_desk_commands.specs.inner.Choosing.{IsFresh, Runs, lender, source_of};
    ghost use Rattle.dw_desk_commands.specs.inner.Faults.{IsCaused};
    ghost use Rattle.dw_games.specs.GameReading.{numbered_game};
    ghost use Rattle.dw_games.specs.Games.{NumberedGame};

    /// Returns the problems of a portion, of a text of this form that the source gives.
    pub(crate) fn new(alloc: Global, source: &'a mut S, form: Form, portion: Portion) -> Self
        requires { S.is_failed source.old ≡ false }
        ensures fresh { IsFresh B.geometry S.supply form portion result }
        ensures source { source_of result.text ≡ source.old }
        ensures lender { lender result.text ≡ source.entry.ghost_name }
    {
        Chosen {
            alloc,
            text: Text::new(alloc, source, form),
            portion,
            left: MAX_PROBLEMS + 1,
        }
    }

    /// Returns the reference to the source. Chosen problems that are dropped do not tell their caller what was read.
    pub(crate) fn into_source(self) -> &'a mut S
        ensures lender { result.ghost_name ≡ lender self.entry.text }
        ensures source { result.now ≡ source_of self.entry.text }
    {
        let Chosen { text, .. } = self;
        text.into_source()
    }

    /// Returns the number of the first problem of the portion.
    pub(crate) fn first(&self) -> u32
        ensures { result ≡ self.now.portion.first }
    {
        self.portion.first
    }

    /// Returns whether it is an error if none of these problems is there.
    pub(crate) fn must_exist(&self) -> bool
        ensures { result ≡ self.now.portion.must_exist }
    {
        self.portion.must_exist
    }

    /// Returns the next of them, or `None` if there is no more. Reading ends after the last.
    pub(crate) fn next(&mut self) -> Result<Option<Game<B>>, DeskFault>
        requires { Runs self.old.text }
        ensures given { IfOk result (λ found. HandsOut (AreToCome B.geometry S.supply self.old)
            (AreToCome B.geometry S.supply self.new) (MayBe S.supply self.new) (option_map numbered_game found)) }
        ensures more { IfOk result (λ found. IfSome found (λ _. HaveGames B.geometry S.supply self.new)) }
        ensures on { GoesOn S.supply self.old.text self.new.text }
        ensures possible { (whole : List ℕ) → MayBe S.supply self.new whole → MayBe S.supply self.old whole }
        ensures portion { self.new.portion ≡ self.old.portion }
        ensures fewer { IfOk result (λ found. IfSome found (λ _. self.new.left < self.old.left)) }
        ensures lender { lender self.new.text ≡ lender self.old.text }
        ensures cause { IfErr result (IsCaused (S.is_failed (source_of self.new.text)) false) }
        ensures runs { OnOk result (Runs self.new.text) }
    {
        'games: while self.left > 0 {
            let Some(game) = self.text.next(self.alloc)? else {
                return Ok(None);
            };
            let number = game.problem.number;
            self.left = self.left_behind(number);
            if self.has(number) {
                return Ok(Some(game));
            }
        }
        Ok(None)
    }

    /// Returns whether a number is in the portion.
    fn has(&self, number: u32) -> bool
        ensures { result ≡ is_in self.now.portion number }
    {
        self.portion.first <= number
            && match self.portion.last {
                Some(last) => number <= last,
                None => true,
            }
    }

    /// Returns how many problems are still looked at after a number: none, if the portion ends there.
    fn left_behind(&self, number: u32) -> u32
        requires { 0 < self.now.left }
        ensures { result ≡ (if is_met self.now.portion.last number then 0 else self.now.left - 1) }
    {
        match self.portion.last {
            Some(last) if last <= number => 0,
            _ => self.left - 1,
        }
    }
}

/// A text, by the form of its problems.
#[derive(Drop)]
enum Text<'a, B: Board, S> {
    Fens(Problems<'a, B, S>),
    Pdn(Games<'a, B, S>),
}

impl<'a, B: Board, S: Source> Text<'a, B, S> {
    ghost use Rattle.dw_desk_commands.specs.Chosen.{AreGamesIn};
    ghost use Rattle.dw_desk_commands.specs.inner.Choosing.{AreAhead, ComesNext, EndIsKnown, GoesOn, IsPossible};
    ghost use Rattle.dw_desk_commands.specs.inner.Choosing.{Runs, lender, source_of};
    ghost use Rattle.dw_desk_commands.specs.inner.Faults.{IsCaused};
    ghost use Rattle.dw_games.specs.Games.{NumberedGame};

    /// Returns a text of this form that the source gives.
    fn new(alloc: Global, source: &'a mut S, form: Form) -> Self
        requires { S.is_failed source.old ≡ false }
        ensures source { source_of result ≡ source.old }
        ensures games { (bytes : List ℕ) (games : List NumberedGame) → AreAhead B.geometry result bytes games
            → AreGamesIn B.geometry form bytes games }
        ensures some { (bytes : List ℕ) → (games : List NumberedGame) × AreAhead B.geometry result bytes games }
        ensures end { EndIsKnown S.supply (S.supply source.old) result }
        ensures lender { lender result ≡ source.entry.ghost_name }
        ensures runs { Runs result }
    {
        match form {
            Form::Fens => Text::Fens(Problems::new(source, form)),
            Form::Pdn => Text::Pdn(Games::new(alloc, source)),
        }
    }

    /// Returns the reference to the source.
    fn into_source(self) -> &'a mut S
        ensures lender { result.ghost_name ≡ lender self.entry }
        ensures source { result.now ≡ source_of self.entry }
    {
        match self {
            Text::Fens(problems) => problems.into_source(),
            Text::Pdn(games) => games.into_source(),
        }
    }

    /// Returns the next problem, chosen or not.
    fn next(&mut self, alloc: Global) -> Result<Option<Game<B>>, DeskFault>
        requires { Runs self.old }
        ensures given { IfOk result (ComesNext B.geometry S.supply self.old self.new) }
        ensures on { GoesOn S.supply self.old self.new }
        ensures possible { (whole : List ℕ) → IsPossible S.supply self.new whole → IsPossible S.supply self.old whole }
        ensures lender { lender self.new ≡ lender self.old }
        ensures cause { IfErr result (IsCaused (S.is_failed (source_of self.new)) false) }
        ensures runs { OnOk result (Runs self.new) }
    {
        match self {
            Text::Pdn(games) => Ok(games.next()?),
            Text::Fens(problems) => match problems.next()? {
                None => Ok(None),
                Some(problem) => Ok(Some(Game {
                    problem,
                    tags: Vec::new(alloc),
                    movetext: Vec::new(alloc),
                })),
            },
        }
    }
}
