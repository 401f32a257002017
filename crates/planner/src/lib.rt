// The planner: the call round the search. Any input is taken; the answer is a plan or exactly one refusal, tested in the paper's order.
//
// specs/Limits.antt has tests 5 to 7 and 15, specs/Answer.antt the whole answer of a call; proofs/Promises.antt collects what is promised.
// `call` is the call; `limits` has tests 5 to 7 and 15 for every caller; `fields` reads an answer.

#![tactic(auto)]

pub mod call;
pub mod fields;
pub mod limits;

ghost use Rattle.std.specs.Prelude.{◌≡◌};
ghost use Rattle.planner.specs.declared.Refusal.TheVariants.{Board, Beyond};

use board::Fault;
use search::Weight;

// A plan: how many moves, and how many visits the search made.
#[derive(Clone, Copy, Debug, PartialEq, Eq)]
pub struct Plan {
    pub length: usize,
    pub visits: u32,
}

// A ceiling, a budget or a weight that is not taken: the paper's 5 to 7 and 15, in its order.
#[derive(Clone, Copy, Debug, PartialEq, Eq)]
pub enum Limit {
    // 5: ceiling below 0 or above 120
    BadCeiling,
    // 6: budget not 1 to 1,000,000
    BadBudget,
    // 7: q is 0, or p < q, or p > 64
    BadWeight,
    // 15: some number above 1 divides both p and q
    NotLowest,
}

// The ceiling and the weight of a call that keeps the limits.
#[derive(Clone, Copy, Debug, PartialEq, Eq)]
pub struct Terms {
    pub ceiling: usize,
    pub weight: Weight,
}

// Why there is no plan: the paper's 1 to 7, 15 and 8 to 11, in its order.
#[derive(Clone, Copy, Debug, PartialEq, Eq)]
pub enum Refusal {
    // 1 to 4: the shape or the board
    Board(Fault),
    // 5 to 7 and 15: the ceiling, the budget or the weight
    Beyond(Limit),
    // 8: a buffer is too short
    ShortBuffer,
    // 9: the goal cannot be reached
    OddBoard,
    // 10: no plan within the ceiling; the visits made
    NoPlan(u32),
    // 11: a visit beyond the budget was needed; the budget
    OutOfVisits(u32),
}

impl From<Fault> for Refusal {
    ghost from_gives = { λ fault refusal. refusal ≡ Board fault };

    fn from(fault: Fault) -> Refusal {
        Refusal::Board(fault)
    }
}

impl From<Limit> for Refusal {
    ghost from_gives = { λ limit refusal. refusal ≡ Beyond limit };

    fn from(limit: Limit) -> Refusal {
        Refusal::Beyond(limit)
    }
}
