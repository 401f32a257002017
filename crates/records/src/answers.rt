// What a refusal to write says by number, its cell or place, and the record's length.
ghost use Rattle.std.specs.Prelude.{◌≡◌};
ghost use Rattle.records.specs.Answers.{refusal_number, refusal_place, record_length};

use crate::PlanRefusal;
use board::numbered::Numbered;

impl Numbered for PlanRefusal {
    ghost number_of = { refusal_number };

    ghost place_of = { refusal_place };

    fn number(self) -> u32 {
        match self {
            PlanRefusal::Board(fault) => fault.number(),
            PlanRefusal::Beyond(limit) => limit.number(),
            PlanRefusal::TooLong => 21,
            PlanRefusal::NoMove(_) => 13,
            PlanRefusal::OffGrid(_) => 14,
            PlanRefusal::NotSolved => 22,
            PlanRefusal::ShortOutput => 8,
        }
    }

    // The faulty cell (3, 4) or the bad move's place in the list (13, 14).
    fn place(self) -> usize {
        match self {
            PlanRefusal::Board(fault) => fault.place(),
            PlanRefusal::NoMove(i) | PlanRefusal::OffGrid(i) => i,
            _ => 0,
        }
    }
}

// The record's length; 0 for a refusal.
pub fn length(answer: Result<usize, PlanRefusal>) -> usize
    ensures { result ≡ record_length answer }
{
    answer.unwrap_or(0)
}
