//! Diagrams of positions.
ghost use Rattle.std.specs.Prelude.{◌≡◌, ◌≤◌, ◌<◌, ◌+◌, ◌++◌};
ghost use Rattle.std.specs.FinSet as set;
ghost use Rattle.arrayvec.specs.ArrayString.{array_string_len};
ghost use Rattle.dw_board.specs.Geometry as Geo;
ghost use Rattle.dw_board.specs.Placement.{Placement};
ghost use Rattle.dw_board.specs.Diagram as drawn;
ghost use Rattle.dw_board.specs.Diagram.{diagram_text, row_text};
ghost use Rattle.dw_board.specs.inner.Drawing.{AreSigns, sign_by};

use crate::board::Board;
use crate::piece::{Kind, Side};
use crate::position::Position;
use crate::square::Square;
use crate::squares::Squares;
use arrayvec::ArrayString;

/// Enough bytes for the diagram of any position.
pub const DIAGRAM_ROOM: usize = 130;

/// Returns the diagram of a position: a line for each row from the top, between two bars `|`. A light square is a
/// blank, an empty dark one a point, a man `w` or `b`, a king `W` or `B`.
pub fn diagram<B: Board>(position: &Position<B>) -> ArrayString<DIAGRAM_ROOM>
    ensures { result.bytes ≡ diagram_text B.geometry position.now }
{
    let signs = Signs::of(position);
    let mut text = ArrayString::new();
    'rows: for row in 0..B::ROWS {
        push_row(&mut text, &signs, row);
    }
    text
}

fn push_row<B: Board>(text: &mut ArrayString<DIAGRAM_ROOM>, signs: &Signs<B>, row: u8)
    requires on_board { row < B.geometry.rows }
    requires room { array_string_len text.old + 13 ≤ 130 }
    ensures bytes { (p : Placement) → AreSigns B.geometry p signs.now.occupied signs.now.white signs.now.kings
        → text.new.bytes ≡ text.old.bytes ++ row_text B.geometry p row }
    ensures few { array_string_len text.new ≤ array_string_len text.old + 13 }
{
    text.push('|');
    'columns: for column in 0..B::ROWS {
        text.push(sign_at(signs, row, column));
    }
    text.push_str("|\n");
}

fn sign_at<B: Board>(signs: &Signs<B>, row: u8, column: u8) -> char
    requires row_on_board { row < B.geometry.rows }
    requires column_on_board { column < B.geometry.rows }
    ensures ascii { result < 128 }
    ensures value { (p : Placement) → AreSigns B.geometry p signs.now.occupied signs.now.white signs.now.kings
        → result ≡ drawn.sign_at B.geometry p row column }
{
    if (row + column) % 2 == 0 {
        ' '
    } else {
        signs.at(Square::behind(row * B::PER_ROW + column / 2))
    }
}

/// The squares of a position, grouped by their signs.
#[derive(Drop)]
struct Signs<B: Board> {
    occupied: Squares<B>,
    white: Squares<B>,
    kings: Squares<B>,
}

impl<B: Board> Signs<B> {
    /// Returns the sets of the occupied squares, of White's pieces and of all kings of a position.
    fn of(position: &Position<B>) -> Self
        ensures { AreSigns B.geometry position.now result.occupied result.white result.kings }
    {
        let white_kings = position.squares(Side::White, Kind::King);
        let black_kings = position.squares(Side::Black, Kind::King);
        Signs {
            occupied: position.occupied(),
            white: position.all_of(Side::White),
            kings: white_kings.or(black_kings),
        }
    }

    /// Returns the sign of a dark square. Most squares are empty, so that case comes first.
    fn at(&self, square: Square<B>) -> char
        ensures ascii { result < 128 }
        ensures value { result ≡ sign_by (set.contains self.now.occupied square) (set.contains self.now.white square)
            (set.contains self.now.kings square) }
        ensures on_board { Geo.OnBoard B.geometry square }
    {
        square.keeps_to_its_board();
        if !self.occupied.has(square) {
            return '.';
        }
        match (self.white.has(square), self.kings.has(square)) {
            (true, false) => 'w',
            (true, true) => 'W',
            (false, false) => 'b',
            (false, true) => 'B',
        }
    }
}
