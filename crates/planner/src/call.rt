// The planner's call. Any shape, board, ceiling, budget and weight may be given, and buffers of any length with anything in them:
// the answer is a plan or exactly one refusal, tested in the paper's order.
ghost use Rattle.std.specs.Prelude.{◌≡◌, ◌≤◌};
ghost use Rattle.planner.specs.Answer.{short_buffer, answered, called, Settles};
ghost use Rattle.planner.specs.Short.{called_short};
ghost use Rattle.planner.specs.Ends.{LeftWithin, answer_of};

use crate::limits::measured;
use crate::{Plan, Refusal};
use board::faults::tested;
use board::held::hold;
use board::parity::is_odd;
use search::{Job, Out, run};

// Plans with the weight p over q. The table gives four numbers for each depth up to the ceiling; the moves of a plan are put into `moves`.
// Its inputs are the C entry's own, in their order: no struct stands between.
pub fn plan(
    width: u32,
    height: u32,
    board: &[u8],
    ceiling: i32,
    budget: u32,
    p: u32,
    q: u32,
    moves: &mut [u8],
    table: &mut [u16],
) -> Result<Plan, Refusal>
    ensures { Settles
        (answered (called width height board.now ceiling budget p q moves.old table.old))
        result moves.new table.new }
{
    let shape = tested(width, height, board)?;
    let terms = measured(ceiling, budget, p, q)?;
    if short_buffer(terms.ceiling, moves.len(), table.len()) {
        return Err(Refusal::ShortBuffer);
    }
    let start = hold(shape, board);
    if is_odd(shape, start) {
        return Err(Refusal::OddBoard);
    }
    let job = Job {
        shape,
        weight: terms.weight,
        ceiling: terms.ceiling,
    };
    answer_of(budget, run(job, start, budget, moves, table))
}

// The short call's weight, p over q.
pub const SHORT_P: u32 = 3;

pub const SHORT_Q: u32 = 2;

// The short call: no weight is given, and it is the short call's own.
pub fn plan_short(
    width: u32,
    height: u32,
    board: &[u8],
    ceiling: i32,
    budget: u32,
    moves: &mut [u8],
    table: &mut [u16],
) -> Result<Plan, Refusal>
    ensures { Settles
        (answered (called_short width height board.now ceiling budget moves.old table.old))
        result moves.new table.new }
{
    plan(
        width, height, board, ceiling, budget, SHORT_P, SHORT_Q, moves, table,
    )
}

// 8: move buffer shorter than the ceiling, or table shorter than 4 × (ceiling + 1).
fn short_buffer(ceiling: usize, moves: usize, table: usize) -> bool
    requires { ceiling ≤ 120 }
    ensures { result ≡ short_buffer ceiling moves table }
{
    moves < ceiling || table < 4 * (ceiling + 1)
}

// The answer that the search's end makes.
fn answer_of(budget: u32, out: Out) -> Result<Plan, Refusal>
    requires { LeftWithin budget out }
    ensures { result ≡ answer_of budget out }
{
    match out {
        Out::Found(length, left) => Ok(Plan {
            length,
            visits: budget - left,
        }),
        Out::Value(_, left) => Err(Refusal::NoPlan(budget - left)),
        Out::Spent => Err(Refusal::OutOfVisits(budget)),
    }
}
