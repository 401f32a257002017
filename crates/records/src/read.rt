// Reads a record back. Any bytes and any output may be given: the answer is the record's numbers, with its cells and then its moves at
// the start of the output, or exactly one refusal, in the order met, with the output as it was found.
ghost use Rattle.std.specs.Prelude.{◌≡◌};
ghost use Rattle.records.specs.Read.{numbers_in, plan_read, read_back, ReadSettles, with_cells};

use crate::ends::ended_at;
use crate::put::put_bytes;
use crate::scan::{length_at, numbers_at, side_at};
use crate::write::write;
use crate::{Numbers, PlanRefusal, ReadRefusal};

// Reads a record: its numbers, what stands behind them, and then the plan that they tell.
pub fn read(bytes: &[u8], out: &mut [u8]) -> Result<Numbers, ReadRefusal>
    ensures { ReadSettles (read_back bytes.now out.old) result out.new }
{
    let mut cells = [0u32; 16];
    let (numbers, at) = numbers_in(bytes, &mut cells)?;
    let end = at + numbers.length;
    ended_at(bytes, end)?;
    // what no byte can hold becomes 255, which is too large for every board too
    let board = cells.map(|cell| cell.min(255) as u8);
    let n = (numbers.width * numbers.height) as usize;
    read_plan(numbers, &board[..n], &bytes[at..end], out)
}

// The numbers in their order, the cells put in front of a buffer; and the place behind them.
fn numbers_in(bytes: &[u8], cells: &mut [u32; 16]) -> Result<(Numbers, usize), ReadRefusal>
    ensures { numbers_in bytes.now ≡ with_cells cells.new result }
{
    let (width, at) = side_at(bytes, 0)?;
    let (height, at) = side_at(bytes, at)?;
    let n = (width * height) as usize;
    let at = numbers_at(bytes, at, &mut cells[..n])?;
    let mut plan = [0u32; 4];
    let at = numbers_at(bytes, at, &mut plan)?;
    let [ceiling, p, q, visits] = plan;
    let (length, at) = length_at(bytes, at)?;
    let numbers = Numbers {
        width,
        height,
        ceiling,
        p,
        q,
        visits,
        length: length as usize,
    };
    Ok((numbers, at))
}

// E1's tests but the last are the writer's own, asked with room for every record. Then test 8.
fn read_plan(
    numbers: Numbers,
    board: &[u8],
    moves: &[u8],
    out: &mut [u8],
) -> Result<Numbers, ReadRefusal>
    ensures { ReadSettles (plan_read numbers board.now moves.now out.old) result out.new }
{
    // a ceiling above 120 stays above 120
    let ceiling = numbers.ceiling.min(121) as i32;
    write(
        numbers.width,
        numbers.height,
        board,
        ceiling,
        numbers.p,
        numbers.q,
        numbers.visits,
        moves,
        &mut [0u8; 149],
    )?;
    if out.len() < board.len() + moves.len() {
        return Err(ReadRefusal::Plan(PlanRefusal::ShortOutput));
    }
    let next = put_bytes(board, out, 0);
    put_bytes(moves, out, next);
    Ok(numbers)
}
