// What a refusal says by number: the paper's number of it, and the faulty cell (3, 4) or the bad move's place in the list (13, 14).
ghost use Rattle.player.specs.Answers.{refusal_number, refusal_place};

use crate::PlayRefusal;
use board::numbered::Numbered;

impl Numbered for PlayRefusal {
    ghost number_of = { refusal_number };

    ghost place_of = { refusal_place };

    fn number(self) -> u32 {
        match self {
            PlayRefusal::Board(fault) => fault.number(),
            PlayRefusal::ShortOutput => 8,
            PlayRefusal::NoMove(_) => 13,
            PlayRefusal::OffGrid(_) => 14,
        }
    }

    fn place(self) -> usize {
        match self {
            PlayRefusal::Board(fault) => fault.place(),
            PlayRefusal::ShortOutput => 0,
            PlayRefusal::NoMove(i) | PlayRefusal::OffGrid(i) => i,
        }
    }
}
