// Writes a plan's record. Any numbers, board, list and output may be given: the answer is the record's length, with the record at the
// start of the output, or exactly one refusal, tested in the request's order, with the output as it was found.
ghost use Rattle.records.specs.Write.{written, Settles, given};

use crate::PlanRefusal;
use crate::put::Parts;
use board::faults::tested;
use planner::limits::measured;
use player::play;

// Writes the record of a plan: the board, what it was planned with, the visits that it took, and its moves. The parameters are those of
// the C call, in its order.
pub fn write(
    width: u32,
    height: u32,
    board: &[u8],
    ceiling: i32,
    p: u32,
    q: u32,
    visits: u32,
    moves: &[u8],
    out: &mut [u8],
) -> Result<usize, PlanRefusal>
    ensures { Settles
        (written (given width height board.now ceiling p q visits moves.now) out.old)
        result out.new }
{
    tested(width, height, board)?;
    let terms = measured(ceiling, visits, p, q)?;
    if terms.ceiling < moves.len() {
        return Err(PlanRefusal::TooLong);
    }
    // where the list ends is of no use here
    let goal = play(width, height, board, moves, &mut [0u8; 16])?;
    if !goal {
        return Err(PlanRefusal::NotSolved);
    }
    let plan = [terms.ceiling as u32, p, q, visits, moves.len() as u32];
    let record = Parts {
        shape: [width, height],
        board,
        plan,
        moves,
    };
    if out.len() < record.len() {
        return Err(PlanRefusal::ShortOutput);
    }
    Ok(record.put(out))
}
