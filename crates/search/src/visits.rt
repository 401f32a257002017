// The search on the lent table: one stored value for each depth and move. `visit` and `work` call each other, one level deeper
// each time, so the deepest chain is fixed by the ceiling.
//
// The row of depth g is the four numbers of the table from 4g on. A visit at depth g changes no row below g, and writes moves only
// where it finds the goal. The distance of a position is kept beside it: no board is summed here.
ghost use Rattle.std.specs.Prelude.{◌≡◌, ◌+◌, ◌*◌, ◌-◌, ◌≤◌, ◌<◌, length};
ghost use Rattle.board.specs.Held.{held, Holds};
ghost use Rattle.board.specs.Change.{Kept};
ghost use Rattle.search.specs.Space.{boards};
ghost use Rattle.search.specs.Search.{static, first_entry, first_row};
ghost use Rattle.search.specs.Run.{Room, row_at, put_row, visited, worked, Ran, Open, first_at, ended};
ghost use Rattle.search.specs.Run.{of_job, Ended};
ghost use Rattle.search.specs.Ground.{job_of};

use crate::row::{INFINITY, best_of, picked, stops_at};
use crate::{Ground, Out};
use board::{Place, Position};

// How a visit ends. The visits that are left stand in the number that was lent for them: handed up with the end, as `Out` has them, they
// cost the search a thirtieth (35.1 million visits a second against 36.2).
#[derive(Clone, Copy, Debug, PartialEq, Eq)]
pub enum End {
    // At the goal: the whole path's length. The path stands in the move buffer.
    Found(u16),
    // With the F that it returns.
    Value(u16),
    // For want of a visit.
    Spent,
}

impl End {
    // The search's end, with the visits that are left.
    pub fn of_search(self, left: u32) -> Out
        ensures { result ≡ ended self left }
    {
        match self {
            End::Found(length) => Out::Found(usize::from(length), left),
            End::Value(value) => Out::Value(value, left),
            End::Spent => Out::Spent,
        }
    }
}

impl Ground {
    // The visit to the start, with F = f and an infinite bound, and the path that it found. The one place of a search where a board is
    // summed.
    pub fn from_start(
        &self,
        start: Position,
        budget: u32,
        moves: &mut [u8],
        table: &mut [u16],
    ) -> Out
        requires holds { Holds self.now.cabinet.shape start }
        requires room { Room (job_of self.now) table.old moves.old }
        ensures { Ended (of_job (job_of self.now) (held self.now.cabinet.shape start) budget) moves.old result moves.new }
    {
        let h = self.cabinet.distance(start);
        let f = self.value(h, 0);
        let place = Place { position: start, h };
        let mut left = budget;
        let end = self.visit(place, 4, 0, f, INFINITY, &mut left, table, moves);
        end.of_search(left)
    }

    // A visit to a place at depth g, reached by the move `last`, with its stored value and a bound; `left` visits may still be made.
    // `last` is no Option: at the start it is 4, as specs/Search.antt has it in `search`, and the cabinet's table has a row for that.
    // The two buffers in one struct, which says that they are long enough, cost the search a fifteenth (33.7 million visits a second
    // against 36.2), so this stays a clause, `room`.
    #[cycle(visit_work)]
    pub fn visit(
        &self,
        at: Place,
        last: usize,
        g: usize,
        stored: u16,
        bound: u16,
        left: &mut u32,
        table: &mut [u16],
        moves: &mut [u8],
    ) -> End
        requires kept { Kept self.now.cabinet.shape at.position at.h }
        requires last_bound { (last ≤ 4) × (g ≤ self.now.ceiling) }
        requires room { Room (job_of self.now) table.old moves.old }
        ensures { Ran g (visited (job_of self.now) (held self.now.cabinet.shape at.position) last g stored bound left.old)
            table.old moves.old (ended result left.new) table.new moves.new }
    {
        if *left == 0 {
            return End::Spent;
        }
        *left -= 1;
        if at.h == 0 {
            return End::Found(g as u16);
        }
        if g == self.ceiling {
            return End::Value(INFINITY);
        }
        self.first_row(at, last, g, stored, table);
        self.work(at, g, bound, left, table, moves)
    }

    // The work through the successors of the place at depth g, whose stored values are in the table.
    #[cycle(visit_work)]
    fn work(
        &self,
        at: Place,
        g: usize,
        bound: u16,
        left: &mut u32,
        table: &mut [u16],
        moves: &mut [u8],
    ) -> End
        requires kept { Kept self.now.cabinet.shape at.position at.h }
        requires g_lt_ceiling { g < self.now.ceiling }
        requires room { Room (job_of self.now) table.old moves.old }
        requires is_open { Open (job_of self.now) (held self.now.cabinet.shape at.position) (row_at table.old g) }
        ensures { Ran g (worked (job_of self.now) (held self.now.cabinet.shape at.position) g bound (row_at table.old g) left.old)
            table.old moves.old (ended result left.new) table.new moves.new }
    {
        let best = best_of(&table[4 * g..4 * (g + 1)]);
        let mut least = best.value;
        if stops_at(bound, least) {
            return End::Value(least);
        }
        // No `for`: no index is counted, and how many visits a row takes is known once an answer ends it.
        loop {
            let pick = picked(&table[4 * g..4 * (g + 1)], least);
            let m = pick.step;
            let second = pick.second;
            let down = bound.min(second);
            let place = self.cabinet.go(at, m);
            let end = self.visit(place, m, g + 1, least, down, left, table, moves);
            match end {
                End::Found(_) => {
                    moves[g] = m as u8;
                    return end;
                }
                End::Value(v) => {
                    // v is above the bound handed down, or infinity. So where the second least stops the work, this visit was the last;
                    if stops_at(bound, second) {
                        return End::Value(v.min(second));
                    }
                    // and otherwise the second least is the row's least now.
                    table[4 * g + m] = v;
                    least = second;
                }
                End::Spent => return end,
            }
        }
    }

    // Puts the first stored values of the successors into the row of depth g. A successor is one step nearer to the goal or one farther, so
    // two values serve the whole row.
    fn first_row(&self, at: Place, last: usize, g: usize, stored: u16, table: &mut [u16])
        requires kept { (Kept self.now.cabinet.shape at.position at.h) × (0 < at.h) }
        requires last_bound { (last ≤ 4) × (g < self.now.ceiling) }
        requires g_in_bounds { 4 * (g + 1) ≤ length table.old }
        ensures { table.new ≡ put_row table.old g
            (first_row (boards self.now.cabinet.shape) (static (boards self.now.cabinet.shape) self.now.weight) self.now.ceiling
            g (held self.now.cabinet.shape at.position) last stored) }
    {
        let f = self.value(at.h, g);
        let closer = self.first_value(f, stored, at.h - 1, g + 1);
        let farther = self.first_value(f, stored, at.h + 1, g + 1);
        for m in 0..4 {
            table[4 * g + m] = self.first_entry(at, last, g, stored, m, closer, farther);
        }
    }

    // The first stored value of a move: infinity where it makes no successor, and else the nearer or the farther successors' value.
    fn first_entry(
        &self,
        at: Place,
        last: usize,
        g: usize,
        stored: u16,
        m: usize,
        closer: u16,
        farther: u16,
    ) -> u16
        requires kept { Kept self.now.cabinet.shape at.position at.h }
        requires last_bound { (last ≤ 4) × (m < 4) }
        requires closer_value { (closer ≡ first_at (job_of self.now) g at.h stored (at.h - 1))
            × (farther ≡ first_at (job_of self.now) g at.h stored (at.h + 1)) }
        ensures { result ≡ first_entry (boards self.now.cabinet.shape)
            (static (boards self.now.cabinet.shape) self.now.weight) self.now.ceiling
            g (held self.now.cabinet.shape at.position) last stored m }
    {
        let e = at.position.empty;
        let t = self.cabinet.way(e, last, m);
        if t == e {
            return INFINITY;
        }
        if self.cabinet.change_to(at.position, t) < 0 {
            return closer;
        }
        farther
    }
}
