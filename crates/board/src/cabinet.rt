// A cabinet: its shape, and the shape's own table, which is made once. What the table tells of its boards is asked here.
ghost use Rattle.std.specs.Prelude.{◌≡◌, true, ◌≤◌, ◌<◌};
ghost use Rattle.board.specs.Shape.{cells, GoodShape};
ghost use Rattle.board.specs.Moves.{legal};
ghost use Rattle.board.specs.Distance.{NearTable, distance, way};
ghost use Rattle.board.specs.Held.{held, Holds};
ghost use Rattle.board.specs.Change.{change_to, MovedBy, Kept, LeadsTo};
ghost use Rattle.std.proofs.Props.{props};
ghost use Rattle.board.specs.Once.{Side-prop};

use crate::distance::near_table;
use crate::held::{cell_count, number_at};
use crate::moves::{change_of, changed, slid};
use crate::{Moved, Place, Position, Shape};

// The shape is good. The table has 64 entries for each cell: what each tray adds to the distance there, and the ways from there.
#[derive(Drop)]
pub struct Cabinet {
    pub shape: Shape,
    pub near: [u8; 1024],
    pub ghost good: { GoodShape shape } by { Prim.hlevel (props, Side-prop) },
    pub ghost table: { NearTable shape near },
}

impl Cabinet {
    // Made once for a search or a play.
    pub fn new(shape: Shape) -> Cabinet
        requires { GoodShape shape }
        ensures { result.shape ≡ shape }
    {
        Cabinet {
            shape,
            near: near_table(shape),
        }
    }

    // Rows plus columns from each tray to its goal cell, summed over the board. Whoever makes moves sums once and then keeps the distance.
    pub fn distance(&self, p: Position) -> usize
        requires { Holds self.now.shape p }
        ensures { result ≡ distance self.now.shape (held self.now.shape p) }
    {
        let mut sum = 0;
        for i in 0..cell_count(self.shape) {
            sum += usize::from(self.near[64 * i + number_at(p, i)]);
        }
        sum
    }

    // The position after a legal move, and the change of its distance.
    pub fn after(&self, p: Position, m: usize) -> Moved
        requires holds { Holds self.now.shape p }
        requires legal_move { legal self.now.shape (held self.now.shape p) m ≡ true }
        ensures { MovedBy self.now.shape (held self.now.shape p) m result }
    {
        let t = self.way(p.empty, 4, m);
        let change = self.change_to(p, t);
        let position = slid(p, t);
        Moved { position, change }
    }

    // The place after a legal move, its distance that before it with the change.
    pub fn go(&self, at: Place, m: usize) -> Place
        requires kept { Kept self.now.shape at.position at.h }
        requires legal_move { legal self.now.shape (held self.now.shape at.position) m ≡ true }
        ensures { LeadsTo self.now.shape (held self.now.shape at.position) m result }
    {
        let moved = self.after(at.position, m);
        let h = changed(at.h, moved.change);
        Place {
            position: moved.position,
            h,
        }
    }

    // The cell that the move m leads to from cell e after the move `last`: e itself where it leaves the grid or takes the last move
    // back. One look-up for both: this is in the search's inner loop. `last` and the cell are no Options: the table has a row for 4, no
    // move, and a byte for every way (specs/Distance.antt, `way`).
    pub fn way(&self, e: usize, last: usize, m: usize) -> usize
        requires e_bound { e < cells self.now.shape }
        requires last_bound { (last ≤ 4) × (m < 4) }
        ensures { result ≡ way self.now.shape e last m }
    {
        usize::from(self.near[64 * e + 16 + 4 * last + m])
    }

    // The change of distance where the empty cell goes to cell t: that of the one tray that slides.
    #[tactic(auto, using(crate::proofs::code::Holding::bounds))]
    pub fn change_to(&self, p: Position, t: usize) -> i8
        requires holds { Holds self.now.shape p }
        requires t_bound { t < cells self.now.shape }
        ensures { result ≡ change_to self.now.shape (held self.now.shape p) t }
    {
        let e = p.empty;
        let tray = number_at(p, t);
        change_of(self.near[64 * e + tray], self.near[64 * t + tray])
    }
}
