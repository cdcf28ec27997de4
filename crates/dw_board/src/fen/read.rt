//! Reading FEN texts.
ghost use Rattle.std.specs.Prelude.{◌≡◌, ◌+◌, ◌-◌, ◌≤◌, ◌<◌, Bool, false, if◌then◌else◌, Some, None, Ok, Err, ◌↔◌};
ghost use Rattle.std.specs.Prelude.{MatchResult, OnOk, IfOk, length};
ghost use Rattle.dw_board.specs.Placement.{Placement, same_side};
ghost use Rattle.dw_board.specs.FenGrammar.{Fen};
ghost use Rattle.dw_board.specs.FenTokens.{is_sign};
ghost use Rattle.dw_board.specs.inner.FenReader.{tokens_of, end_of};
ghost use Rattle.dw_board.specs.FenTokens.{first_is, no_item};
ghost use Rattle.dw_board.specs.Fen.{fen, short_fen, read_from, Listing, Item, AfterColon, AfterColour};
ghost use Rattle.dw_board.specs.inner.FenReading.{listing};
ghost use Rattle.dw_board.specs.Fen.{AfterComma, AfterNumber, AfterItem};
ghost use Rattle.dw_board.specs.inner.FenReading.{read_behind};
ghost use Rattle.dw_board.specs.Fen.{set_squares as squares_set};
ghost use Rattle.dw_board.specs.FenFaults.{put_kind as kind_of_put, IsFirstFault};

use crate::board::Board;
use crate::fen::fault::{FenFault, FenFaultKind};
use crate::fen::tokens::Tokens;
use crate::piece::{Kind, Piece, PutFault, Side};
use crate::position::Position;
use crate::square::Square;

/// The most bytes of a FEN text.
pub const MAX_FEN: usize = 1024;

/// Reads the position that a FEN text of at most `MAX_FEN` bytes names, or returns the text's earliest fault.
pub fn read_fen<B: Board>(text: &[u8]) -> Result<Position<B>, FenFault>
    ensures exact { result ≡ fen B.geometry text.now }
    ensures grammar { (p : Placement) → (result ≡ Ok p) ↔ Fen B.geometry text.now p }
    ensures fault { (f : FenFault) → (result ≡ Err f) ↔ IsFirstFault B.geometry text.now f }
{
    if text.len() > MAX_FEN {
        return Err(FenFault {
            what: FenFaultKind::TooLong,
            place: MAX_FEN as u16 + 1,
        });
    }
    read_short_fen(text)
}

/// Reads a text, which must be of at most `MAX_FEN` bytes.
fn read_short_fen<B: Board>(text: &[u8]) -> Result<Position<B>, FenFault>
    requires { length text.now ≤ MAX_FEN }
    ensures { result ≡ short_fen B.geometry text.now }
{
    let mut tokens = Tokens::new(text);
    let Some(turn) = tokens.take_side() else {
        return Err(tokens.fault(FenFaultKind::Turn));
    };
    if !tokens.take(b':') {
        return Err(tokens.fault(FenFaultKind::Colon));
    }
    read_first(&mut tokens, Position::empty(turn))
}

/// Reads the first list after its colon, and the rest of the text.
fn read_first<B: Board>(
    tokens: &mut Tokens<'_>,
    mut position: Position<B>,
) -> Result<Position<B>, FenFault>
    ensures { result ≡ read_from B.geometry (end_of tokens.old) (AfterColon None position) (tokens_of tokens.old) }
{
    let Some(first) = tokens.take_side() else {
        return Err(tokens.fault(FenFaultKind::Colour));
    };
    read_list(tokens, first, &mut position)?;
    if tokens.take(b':') {
        return read_second(tokens, first, position);
    }
    read_end(tokens, position)
}

/// Reads the second list after its colon, and the rest of the text.
fn read_second<B: Board>(
    tokens: &mut Tokens<'_>,
    first: Side,
    mut position: Position<B>,
) -> Result<Position<B>, FenFault>
    ensures { result ≡ read_from B.geometry (end_of tokens.old) (AfterColon (Some first) position)
        (tokens_of tokens.old) }
{
    let same_colour = tokens.fault(FenFaultKind::SameColour);
    let Some(second) = tokens.take_side() else {
        return Err(tokens.fault(FenFaultKind::Colour));
    };
    if is_same_side(first, second) {
        return Err(same_colour);
    }
    read_list(tokens, second, &mut position)?;
    if tokens.take(b':') {
        return Ok(position);
    }
    read_end(tokens, position)
}

fn is_same_side(a: Side, b: Side) -> bool
    ensures { result ≡ same_side a b }
{
    match a {
        Side::White => matches!(b, Side::White),
        Side::Black => matches!(b, Side::Black),
    }
}

/// Reads the end of a text, after its lists: nothing, or a stop.
fn read_end<B: Board>(
    tokens: &mut Tokens<'_>,
    position: Position<B>,
) -> Result<Position<B>, FenFault>
    requires comma { first_is (is_sign 44) (tokens_of tokens.old) ≡ false }
    requires colon { first_is (is_sign 58) (tokens_of tokens.old) ≡ false }
    ensures { (list : Listing) → list.placed ≡ position
        → result ≡ read_from B.geometry (end_of tokens.old) (AfterItem list) (tokens_of tokens.old) }
{
    let _has_stop = tokens.take(b'.');
    if tokens.is_at_end() {
        Ok(position)
    } else {
        Err(tokens.fault(FenFaultKind::Rest))
    }
}

/// Reads a list after its colour: nothing, or items joined by commas.
fn read_list<B: Board>(
    tokens: &mut Tokens<'_>,
    side: Side,
    position: &mut Position<B>,
) -> Result<(), FenFault>
    ensures list { (second : Bool) → MatchResult result
        (λ _. read_from B.geometry (end_of tokens.old) (AfterColour (listing side second position.old))
        (tokens_of tokens.old)
        ≡ read_from B.geometry (end_of tokens.old) (AfterItem (listing side second position.new))
        (tokens_of tokens.new))
        (λ e. read_from B.geometry (end_of tokens.old) (AfterColour (listing side second position.old))
        (tokens_of tokens.old) ≡ Err e) }
    ensures no_comma { OnOk result (first_is (is_sign 44) (tokens_of tokens.new) ≡ false) }
    ensures end { end_of tokens.new ≡ end_of tokens.old }
{
    if ends_list(tokens) {
        return Ok(());
    }
    read_items(tokens, side, position)
}

/// Returns whether no item can follow: at the end, at a colon and at a stop.
fn ends_list(tokens: &Tokens<'_>) -> bool
    ensures { result ≡ no_item (tokens_of tokens.now) }
{
    tokens.is_at_end() || tokens.stands(b':') || tokens.stands(b'.')
}

/// Reads items joined by commas, one at the least.
fn read_items<B: Board>(
    tokens: &mut Tokens<'_>,
    side: Side,
    position: &mut Position<B>,
) -> Result<(), FenFault>
    ensures items { (second : Bool) → MatchResult result
        (λ _. read_from B.geometry (end_of tokens.old) (AfterComma (listing side second position.old))
        (tokens_of tokens.old)
        ≡ read_from B.geometry (end_of tokens.old) (AfterItem (listing side second position.new))
        (tokens_of tokens.new))
        (λ e. read_from B.geometry (end_of tokens.old) (AfterComma (listing side second position.old))
        (tokens_of tokens.old) ≡ Err e) }
    ensures no_comma { OnOk result (first_is (is_sign 44) (tokens_of tokens.new) ≡ false) }
    ensures end { end_of tokens.new ≡ end_of tokens.old }
{
    'items: loop {
        read_item(tokens, side, position)?;
        if !tokens.take(b',') {
            return Ok(());
        }
    }
}

/// Reads an item, and sets its squares.
fn read_item<B: Board>(
    tokens: &mut Tokens<'_>,
    side: Side,
    position: &mut Position<B>,
) -> Result<(), FenFault>
    ensures item { (second : Bool) → MatchResult result
        (λ _. read_from B.geometry (end_of tokens.old) (AfterComma (listing side second position.old))
        (tokens_of tokens.old)
        ≡ read_from B.geometry (end_of tokens.old) (AfterItem (listing side second position.new))
        (tokens_of tokens.new))
        (λ e. read_from B.geometry (end_of tokens.old) (AfterComma (listing side second position.old))
        (tokens_of tokens.old) ≡ Err e) }
    ensures end { end_of tokens.new ≡ end_of tokens.old }
    ensures shorter { OnOk result (length (tokens_of tokens.new) < length (tokens_of tokens.old)) }
{
    let is_king = tokens.take_king();
    let place = tokens.place();
    let Some(from) = tokens.take_square::<B>() else {
        return Err(tokens.fault(FenFaultKind::Number));
    };
    let to = read_range_end(tokens, from)?;
    let kind = kind_of(is_king);
    set_squares(position, from, to, Piece { side, kind }, place)
}

fn kind_of(is_king: bool) -> Kind
    ensures { result ≡ (if is_king then Kind.King else Kind.Man) }
{
    if is_king { Kind::King } else { Kind::Man }
}

/// Reads the rest of an item that begins with this square: the last square of its range.
fn read_range_end<B: Board>(tokens: &mut Tokens<'_>, from: Square<B>) -> Result<Square<B>, FenFault>
    ensures range { (list : Listing) (item : Item) → item.from ≡ from → MatchResult result
        (λ to. read_from B.geometry (end_of tokens.old) (AfterNumber list item) (tokens_of tokens.old)
        ≡ read_behind B.geometry (end_of tokens.old) list item to (tokens_of tokens.new))
        (λ e. read_from B.geometry (end_of tokens.old) (AfterNumber list item) (tokens_of tokens.old) ≡ Err e) }
    ensures ordered { IfOk result (λ to. from ≤ to) }
    ensures end { end_of tokens.new ≡ end_of tokens.old }
    ensures not_longer { length (tokens_of tokens.new) ≤ length (tokens_of tokens.old) }
{
    if !tokens.take(b'-') {
        return Ok(from);
    }
    let backwards = tokens.fault(FenFaultKind::RangeBackwards);
    let Some(to) = tokens.take_square::<B>() else {
        return Err(tokens.fault(FenFaultKind::Number));
    };
    if to.number() < from.number() {
        return Err(backwards);
    }
    Ok(to)
}

/// Puts a piece on each square of a range, ascending. A fault gets the given place.
fn set_squares<B: Board>(
    position: &mut Position<B>,
    from: Square<B>,
    to: Square<B>,
    piece: Piece,
    place: u16,
) -> Result<(), FenFault>
    requires { from ≤ to }
    ensures { MatchResult result
        (λ _. squares_set B.geometry piece place from (to + 1 - from) position.old ≡ Ok position.new)
        (λ e. squares_set B.geometry piece place from (to + 1 - from) position.old ≡ Err e) }
{
    'squares: for number in from.number()..to.number() + 1 {
        let Some(square) = Square::new(number) else {
            unreachable!();
        };
        if let Err(why) = position.put(square, piece) {
            return Err(FenFault {
                what: put_kind(why),
                place,
            });
        }
    }
    Ok(())
}

fn put_kind(why: PutFault) -> FenFaultKind
    ensures { result ≡ kind_of_put why }
{
    match why {
        PutFault::Taken => FenFaultKind::Twice,
        PutFault::LastRow => FenFaultKind::LastRow,
        PutFault::TooMany => FenFaultKind::TooMany,
    }
}
