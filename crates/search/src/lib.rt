// The search: recursive best-first search (Korf 1993) with the customer's move order, tie rule and ceiling.
//
// specs/Search.antt is the search in the paper's words, specs/Row.antt every decision that it takes, specs/Run.antt what the code is held
// to. `run` is a whole search, the one function that another part calls; `visits` has visit and work, `row` the decisions,
// `values` the values by numbers.

#![tactic(auto)]

mod row;
mod values;
mod visits;

ghost use Rattle.std.specs.Prelude.{◌≡◌};
ghost use Rattle.std.proofs.Props.{props};
ghost use Rattle.board.specs.Once.{Side-prop};
ghost use Rattle.board.specs.Held.{held, Holds};
ghost use Rattle.search.specs.Run.{SmallJob, Room, Searched};

use board::cabinet::Cabinet;
use board::{Position, Shape};

// The weight p over q.
#[derive(Clone, Copy, Debug, PartialEq, Eq)]
pub struct Weight {
    pub p: usize,
    pub q: usize,
}

// What a search is asked for.
#[derive(Clone, Copy, Debug, PartialEq, Eq)]
pub struct Job {
    pub shape: Shape,
    pub weight: Weight,
    pub ceiling: usize,
}

// What stays the same through the visits of one search: a job that passed the tests, with its shape's cabinet in place of the shape.
#[derive(Drop)]
struct Ground {
    weight: Weight,
    ceiling: usize,
    cabinet: Cabinet,
    ghost small: { SmallJob (record { shape = cabinet.shape; weight = weight; ceiling = ceiling }) } by { Prim.hlevel (props, Side-prop) },
}

// A move and its stored value.
#[derive(Clone, Copy, Debug, PartialEq, Eq)]
pub struct Choice {
    pub step: usize,
    pub value: u16,
}

// The move to visit, and the second least value.
#[derive(Clone, Copy, Debug, PartialEq, Eq)]
pub struct Pick {
    pub step: usize,
    pub second: u16,
}

// How a search ends.
#[derive(Clone, Copy, Debug, PartialEq, Eq)]
pub enum Out {
    // At the goal: the whole path's length, and the visits left. The path stands in the move buffer.
    Found(usize, u32),
    // With the F that it returns, and the visits left.
    Value(u16, u32),
    // For want of a visit.
    Spent,
}

// A whole search of a tested job: its end, the path in the move buffer, and every number of the table that it used cleared.
pub fn run(job: Job, start: Position, budget: u32, moves: &mut [u8], table: &mut [u16]) -> Out
    requires small_job { (SmallJob job) × (Holds job.shape start) }
    requires room { Room job table.old moves.old }
    ensures { Searched job (held job.shape start) budget moves.old table.old
        result moves.new table.new }
{
    let rows = 4 * (job.ceiling + 1);
    let ground = Ground {
        weight: job.weight,
        ceiling: job.ceiling,
        cabinet: Cabinet::new(job.shape),
    };
    let out = ground.from_start(start, budget, moves, &mut table[..rows]);
    table[..rows].fill(0);
    out
}
