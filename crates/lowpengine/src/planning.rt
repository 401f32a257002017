// The planner's call with the table as bytes. Nothing that stood in the table matters, so the search has a table of its own, of as many
// numbers as the caller's bytes give; afterwards the caller's bytes are cleared where the search's numbers stand.
ghost use Rattle.std.specs.Prelude.{◌≡◌};
ghost use Rattle.planner.specs.Limits.{ceiling_of};
ghost use Rattle.planner.specs.Answer.{called};
ghost use Rattle.lowpengine.specs.Bytes.{numbers_used};
ghost use Rattle.lowpengine.specs.Given.{PlanGiven};

use crate::packing::packed_plan;
use planner::call::plan;
use planner::fields::search_ran;

// The numbers that a search to the highest ceiling uses.
const MOST: usize = 484;

// Both planner entries are this function.
pub fn plan_in_bytes(
    width: u32,
    height: u32,
    board: &[u8],
    ceiling: i32,
    budget: u32,
    p: u32,
    q: u32,
    moves: &mut [u8],
    table: &mut [u8],
) -> u64
    ensures { PlanGiven
        (called width height board.now ceiling budget p q moves.old table.old)
        result moves.new table.new }
{
    let mut own = [0u16; MOST];
    let all = table.len();
    let lent = (all / 2).min(MOST);
    let answer = plan(
        width,
        height,
        board,
        ceiling,
        budget,
        p,
        q,
        moves,
        &mut own[..lent],
    );
    let used = 2 * numbers_used(search_ran(answer), ceiling);
    table[..used].fill(0);
    packed_plan(answer)
}

// How many numbers are cleared: those of the search where it was run. A test's refusal leaves the table as found.
fn numbers_used(ran: bool, ceiling: i32) -> usize
    ensures { result ≡ numbers_used ran ceiling }
{
    if ran {
        return 4 * highest_depth(ceiling) + 4;
    }
    0
}

// The ceiling as a number of moves; 0 for one below 0.
fn highest_depth(ceiling: i32) -> usize
    ensures { result ≡ ceiling_of ceiling }
{
    usize::try_from(ceiling).unwrap_or(0)
}
