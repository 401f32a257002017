// An answer's fields: a refusal's number and cell by the board's trait, the plan's length and the visits; and whether the search was run.
ghost use Rattle.std.specs.Prelude.{◌≡◌};
ghost use Rattle.planner.specs.Answer.{refusal_number, refusal_cell, refusal_visits, refused_by_search, plan_length, search_ran};
ghost use Rattle.planner.specs.Answer.{visits};

use crate::{Plan, Refusal};
use board::numbered::Numbered;

impl Numbered for Refusal {
    ghost number_of = { refusal_number };

    ghost place_of = { refusal_cell };

    fn number(self) -> u32 {
        match self {
            Refusal::Board(fault) => fault.number(),
            Refusal::Beyond(limit) => limit.number(),
            Refusal::ShortBuffer => 8,
            Refusal::OddBoard => 9,
            Refusal::NoPlan(_) => 10,
            Refusal::OutOfVisits(_) => 11,
        }
    }

    // Only a fault of the board is of a cell.
    fn place(self) -> usize {
        match self {
            Refusal::Board(fault) => fault.place(),
            _ => 0,
        }
    }
}

// 0 in every refusal.
pub fn plan_length(answer: Result<Plan, Refusal>) -> usize
    ensures { result ≡ plan_length answer }
{
    match answer {
        Ok(plan) => plan.length,
        Err(_) => 0,
    }
}

// 0 in every refusal but 10 and 11.
pub fn visits(answer: Result<Plan, Refusal>) -> u32
    ensures { result ≡ visits answer }
{
    match answer {
        Ok(plan) => plan.visits,
        Err(why) => refusal_visits(why),
    }
}

// A plan, 10 or 11: the search was run, and the table's numbers that it used are 0.
pub fn search_ran(answer: Result<Plan, Refusal>) -> bool
    ensures { result ≡ search_ran answer }
{
    match answer {
        Ok(_) => true,
        Err(why) => refused_by_search(why),
    }
}

fn refusal_visits(why: Refusal) -> u32
    ensures { result ≡ refusal_visits why }
{
    match why {
        Refusal::NoPlan(visits) | Refusal::OutOfVisits(visits) => visits,
        _ => 0,
    }
}

fn refused_by_search(why: Refusal) -> bool
    ensures { result ≡ refused_by_search why }
{
    matches!(why, Refusal::NoPlan(_) | Refusal::OutOfVisits(_))
}
