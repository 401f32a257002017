// What the archive liblowpengine.a exports to the line controller, which is written in C: each export is the entry of crate lowpengine that
// has its name, with the same clauses. A slice is a pointer, then a size_t. Any numbers and any bytes may be given: no entry has a
// precondition but that the slices are the caller's.

#![tactic(auto)]

ghost use Rattle.std.specs.Prelude.{◌≡◌};
ghost use Rattle.planner.specs.Answer.{called};
ghost use Rattle.planner.specs.Short.{called_short};
ghost use Rattle.records.specs.Write.{given};
ghost use Rattle.lowpengine.specs.Packed.{packed_reach};
ghost use Rattle.lowpengine.specs.Given.{PlanGiven, PlayGiven, RecordGiven, ReadGiven};

// Plans with the weight p over q. The answer's number, cell, length and visits come back as one number, at bits 0, 8, 16 and 32.
#[unsafe(no_mangle)]
pub extern "C" fn lowpengine_plan(
    width: u32,
    height: u32,
    board: &[u8],
    ceiling: i32,
    budget: u32,
    p: u32,
    q: u32,
    moves: &mut [u8],
    table: &mut [u8],
) -> u64
    ensures { PlanGiven
        (called width height board.now ceiling budget p q moves.old table.old)
        result moves.new table.new }
{
    lowpengine::lowpengine_plan(width, height, board, ceiling, budget, p, q, moves, table)
}

// The short call: no weight is given, and it is the planner's for the short call.
#[unsafe(no_mangle)]
pub extern "C" fn lowpengine_plan_short(
    width: u32,
    height: u32,
    board: &[u8],
    ceiling: i32,
    budget: u32,
    moves: &mut [u8],
    table: &mut [u8],
) -> u64
    ensures { PlanGiven
        (called_short width height board.now ceiling budget moves.old table.old)
        result moves.new table.new }
{
    lowpengine::lowpengine_plan_short(width, height, board, ceiling, budget, moves, table)
}

// Plays a move list. The number comes back at bit 0; from bit 8 on 1 or 0 for whether the list ends at the goal, or a refusal's cell
// or place.
#[unsafe(no_mangle)]
pub extern "C" fn lowpengine_play(
    width: u32,
    height: u32,
    board: &[u8],
    moves: &[u8],
    out: &mut [u8],
) -> u64
    ensures { PlayGiven width height board.now moves.now out.old result out.new }
{
    lowpengine::lowpengine_play(width, height, board, moves, out)
}

// Writes the record of a plan. The number comes back at bit 0; from bit 8 on the record's length, or a refusal's cell or place.
#[unsafe(no_mangle)]
pub extern "C" fn lowpengine_write_record(
    width: u32,
    height: u32,
    board: &[u8],
    ceiling: i32,
    p: u32,
    q: u32,
    visits: u32,
    moves: &[u8],
    out: &mut [u8],
) -> u64
    ensures { RecordGiven
        (given width height board.now ceiling p q visits moves.now) out.old
        result out.new }
{
    lowpengine::lowpengine_write_record(width, height, board, ceiling, p, q, visits, moves, out)
}

// Reads a record back. The number comes back at bit 0; of a record that was read width, height, ceiling, p, q, length and visits at bits 8,
// 11, 14, 21, 28, 35 and 42, of a refusal its place from bit 8 on.
#[unsafe(no_mangle)]
pub extern "C" fn lowpengine_read_record(record: &[u8], out: &mut [u8]) -> u64
    ensures { ReadGiven «record».now out.old result out.new }
{
    lowpengine::lowpengine_read_record(record, out)
}

// Tests 1 to 4, and then test 9 alone, for each key press. The number comes back at bit 0, from bit 8 on the cell of 3 and 4; 0 says that
// test 9 does not hold, and no more.
#[unsafe(no_mangle)]
pub extern "C" fn lowpengine_reachable(width: u32, height: u32, board: &[u8]) -> u64
    ensures { result ≡ packed_reach width height board.now }
{
    lowpengine::lowpengine_reachable(width, height, board)
}
