// A tested board taken into a struct by value, and what stands in its cells.
ghost use Rattle.std.specs.Prelude.{◌≡◌, ◌++◌, ◌≤◌, ◌<◌, length, drop};
ghost use Rattle.board.specs.Shape.{cells, row, column, GoodShape};
ghost use Rattle.board.specs.Board.{IsBoard};
ghost use Rattle.board.specs.Digits.{digit};
ghost use Rattle.board.specs.Held.{held, Holds, Taken};

use crate::faults::first_holding;
use crate::{Position, Shape};

// The board, held: packed from its last cell to its first.
pub fn hold(shape: Shape, board: &[u8]) -> Position
    requires good_shape { GoodShape shape }
    requires board { IsBoard shape board.now }
    ensures { Taken shape board.now result }
{
    let mut cells = 0;
    for x in board.iter().rev() {
        cells = 16 * cells + u64::from(*x);
    }
    let empty = first_holding(board, 0).unwrap();
    Position { cells, empty }
}

// n, the number of cells.
pub fn cell_count(shape: Shape) -> usize
    requires { GoodShape shape }
    ensures { result ≡ cells shape }
{
    shape.width * shape.height
}

// What stands in cell i, as a number that can be an index.
pub fn number_at(p: Position, i: usize) -> usize
    requires { i < 16 }
    ensures { result ≡ digit p.cells i }
{
    ((p.cells >> (4 * i)) % 16) as usize
}

// Puts the held board into the first n bytes of a buffer, a cell a byte.
pub fn put(shape: Shape, p: Position, out: &mut [u8])
    requires holds { Holds shape p }
    requires shape_in_bounds { cells shape ≤ length out.old }
    ensures { out.new ≡ held shape p ++ drop (cells shape) out.old }
{
    for i in 0..cell_count(shape) {
        out[i] = number_at(p, i) as u8;
    }
}

// The row and the column of cell i, by at most three comparisons and no division: every table asks it of each cell.
pub(crate) fn row_and_column(shape: Shape, i: usize) -> (usize, usize)
    requires good_shape { GoodShape shape }
    requires i_bound { i < cells shape }
    ensures row { result.0 ≡ row shape i }
    ensures column { result.1 ≡ column shape i }
{
    let width = shape.width;
    if i < width {
        return (0, i);
    }
    if i < 2 * width {
        return (1, i - width);
    }
    if i < 3 * width {
        return (2, i - 2 * width);
    }
    (3, i - 3 * width)
}
