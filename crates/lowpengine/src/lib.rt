// The entries for the line controller, which is written in C; crate lowpengine_c exports them. Any numbers and any bytes may be given: no
// entry has a precondition.
//
// specs/Bytes.antt has the table as bytes, specs/Packed.antt the answer as one number, specs/Given.antt what an entry gives;
// proofs/Promises.antt collects what follows for the caller, proofs/ReadPromises.antt what follows of reading records.

#![tactic(auto)]

mod packing;
mod planning;
mod reaching;

ghost use Rattle.std.specs.Prelude.{◌≡◌};
ghost use Rattle.planner.specs.Answer.{called};
ghost use Rattle.planner.specs.Short.{called_short};
ghost use Rattle.records.specs.Write.{given};
ghost use Rattle.lowpengine.specs.Packed.{packed_reach};
ghost use Rattle.lowpengine.specs.Given.{PlanGiven, PlayGiven, RecordGiven, ReadGiven};

use crate::packing::{packed_play, packed_reach, packed_reading, packed_record};
use crate::planning::plan_in_bytes;
use planner::call::{SHORT_P, SHORT_Q};
use player::play;
use records::read::read;
use records::write::write;

// Plans with the weight p over q. The answer's number, cell, length and visits come back as one number, at bits 0, 8, 16 and 32.
pub fn lowpengine_plan(
    width: u32,
    height: u32,
    board: &[u8],
    ceiling: i32,
    budget: u32,
    p: u32,
    q: u32,
    moves: &mut [u8],
    table: &mut [u8],
) -> u64
    ensures { PlanGiven
        (called width height board.now ceiling budget p q moves.old table.old)
        result moves.new table.new }
{
    plan_in_bytes(width, height, board, ceiling, budget, p, q, moves, table)
}

// The short call: no weight is given, and it is the planner's for the short call.
pub fn lowpengine_plan_short(
    width: u32,
    height: u32,
    board: &[u8],
    ceiling: i32,
    budget: u32,
    moves: &mut [u8],
    table: &mut [u8],
) -> u64
    ensures { PlanGiven
        (called_short width height board.now ceiling budget moves.old table.old)
        result moves.new table.new }
{
    plan_in_bytes(
        width, height, board, ceiling, budget, SHORT_P, SHORT_Q, moves, table,
    )
}

// Plays a move list. The number comes back at bit 0; from bit 8 on 1 or 0 for whether the list ends at the goal, or a refusal's cell
// or place.
pub fn lowpengine_play(width: u32, height: u32, board: &[u8], moves: &[u8], out: &mut [u8]) -> u64
    ensures { PlayGiven width height board.now moves.now out.old result out.new }
{
    let answer = play(width, height, board, moves, out);
    packed_play(answer)
}

// Writes the record of a plan. The number comes back at bit 0; from bit 8 on the record's length, or a refusal's cell or place.
pub fn lowpengine_write_record(
    width: u32,
    height: u32,
    board: &[u8],
    ceiling: i32,
    p: u32,
    q: u32,
    visits: u32,
    moves: &[u8],
    out: &mut [u8],
) -> u64
    ensures { RecordGiven
        (given width height board.now ceiling p q visits moves.now) out.old
        result out.new }
{
    let answer = write(width, height, board, ceiling, p, q, visits, moves, out);
    packed_record(answer)
}

// Reads a record back. The number comes back at bit 0; of a record that was read width, height, ceiling, p, q, length and visits at bits 8,
// 11, 14, 21, 28, 35 and 42, of a refusal its place from bit 8 on.
pub fn lowpengine_read_record(record: &[u8], out: &mut [u8]) -> u64
    ensures { ReadGiven «record».now out.old result out.new }
{
    let answer = read(record, out);
    packed_reading(answer)
}

// Tests 1 to 4, and then test 9 alone, for each key press. The number comes back at bit 0, from bit 8 on the cell of 3 and 4; 0 says that
// test 9 does not hold, and no more.
pub fn lowpengine_reachable(width: u32, height: u32, board: &[u8]) -> u64
    ensures { result ≡ packed_reach width height board.now }
{
    packed_reach(width, height, board)
}
