// The reachability test of refusal 9, by following the cycles of the board: each value is put into its own cell by an exchange.
ghost use Rattle.std.specs.Prelude.{◌≡◌};
ghost use Rattle.board.specs.Parity.{is_odd};
ghost use Rattle.board.specs.Order.{FewExchanges};
ghost use Rattle.board.specs.Held.{held, Holds};

use crate::held::{cell_count, put, row_and_column};
use crate::{Position, Shape};

// Inversions plus row and column of the empty cell make an odd sum: no legal list leads to the goal.
pub fn is_odd(shape: Shape, p: Position) -> bool
    requires { Holds shape p }
    ensures { result ≡ is_odd shape (held shape p) }
{
    let count = exchanges(shape, p);
    let (row, column) = row_and_column(shape, p.empty);
    (count + row + column) % 2 == 1
}

// How many exchanges of two cells put the held board in order: at most n - 1. On a copy, with the value of cell i in hand: it is put into
// its own cell, what stood there is taken in hand, and so on until that is cell i's own. The last cell needs no turn: once the others hold
// their own numbers, so does it.
fn exchanges(shape: Shape, p: Position) -> usize
    requires { Holds shape p }
    ensures { FewExchanges (held shape p) result }
{
    let n = cell_count(shape);
    let mut cells = [0u8; 16];
    put(shape, p, &mut cells);
    let mut hand = cells[0];
    let mut count = 0;
    let mut i = 0;
    // No `for`: i stands still while a cycle is followed, and `starts_below` bounds the turns by this loop's measure.
    while i + 1 < n {
        let home = usize::from(hand);
        if home == i {
            cells[i] = hand;
            i += 1;
            hand = cells[i];
            continue;
        }
        let next = cells[home];
        cells[home] = hand;
        hand = next;
        count += 1;
    }
    count
}
