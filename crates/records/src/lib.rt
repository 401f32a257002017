// Plan records: a plan with its board, as bytes that a controller stores and sends to the next cabinet.
//
// specs/Record.antt has the bytes of a record, specs/Write.antt the whole answer of a call; proofs/Promises.antt collects what is promised.
// `write` is the call; `put` puts a record's bytes, `groups` its numbers, `mark` its mark; `answers` has a refusal's number and place.
// Back: specs/Scan.antt has the numbers as they stand in bytes, specs/Read.antt the whole answer. `read` is the call; `scan` finds the
// numbers, `ends` looks at what stands behind them; `readings` has a refusal's number and place.

#![tactic(auto)]

pub mod answers;
mod ends;
mod groups;
mod mark;
mod put;
pub mod read;
mod readings;
mod scan;
pub mod write;

ghost use Rattle.std.specs.Prelude.{◌≡◌};
ghost use Rattle.records.specs.declared.PlanRefusal.TheVariants.{Board, Beyond};
ghost use Rattle.records.specs.declared.ReadRefusal.TheVariants.{Plan};
ghost use Rattle.records.specs.Write.{unplayed};

use board::Fault;
use planner::Limit;
use player::PlayRefusal;

// Why a plan is not written: the paper's numbers, in the order of the tests.
#[derive(Clone, Copy, Debug, PartialEq, Eq)]
pub enum PlanRefusal {
    // 1 to 4: a fault of the width, the height or the board
    Board(Fault),
    // 5 to 7 and 15: the ceiling, the visits (tested as a budget) or the weight
    Beyond(Limit),
    // 21: more moves than the ceiling
    TooLong,
    // 13: a byte above 3; its place in the list
    NoMove(usize),
    // 14: a move off the grid; its place in the list
    OffGrid(usize),
    // 22: the list does not end at the goal
    NotSolved,
    // 8: the output is too short
    ShortOutput,
}

impl From<Fault> for PlanRefusal {
    ghost from_gives = { λ fault r. r ≡ Board fault };

    fn from(fault: Fault) -> PlanRefusal {
        PlanRefusal::Board(fault)
    }
}

impl From<Limit> for PlanRefusal {
    ghost from_gives = { λ limit r. r ≡ Beyond limit };

    fn from(limit: Limit) -> PlanRefusal {
        PlanRefusal::Beyond(limit)
    }
}

// The player's refusal of a list, with the same number and place.
impl From<PlayRefusal> for PlanRefusal {
    ghost from_gives = { λ why r. r ≡ unplayed why };

    fn from(why: PlayRefusal) -> PlanRefusal {
        match why {
            PlayRefusal::Board(fault) => PlanRefusal::Board(fault),
            PlayRefusal::ShortOutput => PlanRefusal::ShortOutput,
            PlayRefusal::NoMove(i) => PlanRefusal::NoMove(i),
            PlayRefusal::OffGrid(i) => PlanRefusal::OffGrid(i),
        }
    }
}

// The numbers of a record but its cells.
#[derive(Clone, Copy, Debug, PartialEq, Eq)]
pub struct Numbers {
    pub width: u32,
    pub height: u32,
    pub ceiling: u32,
    pub p: u32,
    pub q: u32,
    pub visits: u32,
    // how many moves there are
    pub length: usize,
}

// Why bytes are not read: the paper's numbers, in the order met.
#[derive(Clone, Copy, Debug, PartialEq, Eq)]
pub enum ReadRefusal {
    // 17: the record is cut short; its length
    CutShort(usize),
    // 18: a number that begins with byte 128, has the top bit set on its fifth byte or is over 32 bits; the place of its first byte
    BadNumber(usize),
    // 1: a width or height outside 2 to 4; the place of its first byte
    BadSide(usize),
    // 21: a length above 120; the place of its first byte
    LongList(usize),
    // 20: bytes after the end; the first place too many
    BytesAfter(usize),
    // 19: the mark is wrong
    WrongMark,
    // then as the writer refuses a plan; 8: the output is shorter than n + length
    Plan(PlanRefusal),
}

impl From<PlanRefusal> for ReadRefusal {
    ghost from_gives = { λ why r. r ≡ Plan why };

    fn from(why: PlanRefusal) -> ReadRefusal {
        ReadRefusal::Plan(why)
    }
}
