// When a move is legal, where it leads, the slide that it makes, and how it changes the distance.
//
// A move stays a number, and is no enum: it is a byte of a move list in the C interface, and the rules speak of every number, of which one
// above 3 is no move (specs/Moves.antt, `legal`).
ghost use Rattle.std.specs.Prelude.{◌≡◌, true, ◌≤◌, ◌<◌, pos, ◌+ℤ◌};
ghost use Rattle.board.specs.Shape.{cells, GoodShape};
ghost use Rattle.board.specs.Moves.{stays_on, leads_to, legal};
ghost use Rattle.board.specs.Distance.{way};
ghost use Rattle.board.specs.Held.{held, Holds, Slides, Slid};
ghost use Rattle.board.specs.Change.{change_of, LeadsOn};

use crate::held::row_and_column;
use crate::{Position, Shape};

// The move is legal on the held board; a number above 3 is no move.
pub fn legal(shape: Shape, p: Position, m: usize) -> bool
    requires { Holds shape p }
    ensures { result ≡ legal shape (held shape p) m }
{
    stays_on(shape, p.empty, m)
}

// The cell that the move m leads to from cell e after the move `last`, by the rules themselves: e itself where it leaves the grid or
// takes the last move back. It is put into the shape's own table.
pub fn way_entry(shape: Shape, e: usize, last: usize, m: usize) -> usize
    requires good_shape { GoodShape shape }
    requires e_bound { e < cells shape }
    requires last_bound { (last ≤ 4) × (m < 4) }
    ensures { result ≡ way shape e last m }
{
    if stays_on(shape, e, m) && last + m != 3 {
        leads_to(shape, e, m)
    } else {
        e
    }
}

// The distance after a move that changed it, from the one before.
pub fn changed(h: usize, change: i8) -> usize
    requires { LeadsOn h change }
    ensures { pos result ≡ pos h +ℤ change }
{
    if change < 0 { h - 1 } else { h + 1 }
}

// The empty cell goes to cell t, and the tray that stood there to the empty cell.
pub(crate) fn slid(p: Position, t: usize) -> Position
    requires { Slides p t }
    ensures { Slid p t result }
{
    let e = p.empty;
    let tray = (p.cells >> (4 * t)) % 16;
    let cells = p.cells - (tray << (4 * t)) + (tray << (4 * e));
    Position { cells, empty: t }
}

// -1 if the tray is nearer to its goal cell than it was, else +1.
pub(crate) fn change_of(new: u8, old: u8) -> i8
    ensures { result ≡ change_of new old }
{
    if new < old { -1 } else { 1 }
}

// The move from cell e stays on the grid.
fn stays_on(shape: Shape, e: usize, m: usize) -> bool
    requires good_shape { GoodShape shape }
    requires e_bound { e < cells shape }
    ensures { result ≡ stays_on shape e m }
{
    let (row, column) = row_and_column(shape, e);
    match m {
        0 => 0 < row,
        1 => 0 < column,
        2 => column + 1 < shape.width,
        3 => row + 1 < shape.height,
        _ => false,
    }
}

// The cell that the move leads to from cell e.
fn leads_to(shape: Shape, e: usize, m: usize) -> usize
    requires good_shape { GoodShape shape }
    requires e_bound { e < cells shape }
    requires on_the_grid { stays_on shape e m ≡ true }
    ensures { result ≡ leads_to shape e m }
{
    match m {
        0 => e - shape.width,
        1 => e - 1,
        2 => e + 1,
        _ => e + shape.width,
    }
}
