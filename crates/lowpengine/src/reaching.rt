// The reachability test by itself: tests 1 to 4, then 9.
ghost use Rattle.std.specs.Prelude.{◌≡◌};
ghost use Rattle.lowpengine.specs.Packed.{reached};

use board::faults::tested;
use board::held::hold;
use board::parity::is_odd;
use planner::Refusal;

// No refusal says that test 9 does not hold, and no more.
pub fn reached(width: u32, height: u32, board: &[u8]) -> Result<(), Refusal>
    ensures { result ≡ reached width height board.now }
{
    let shape = tested(width, height, board)?;
    if is_odd(shape, hold(shape, board)) {
        return Err(Refusal::OddBoard);
    }
    Ok(())
}
