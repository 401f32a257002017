// The run of a move list: one pass, with the position held by value and its distance kept, to the first bad move or the end.
ghost use Rattle.std.specs.Prelude.{◌≡◌};
ghost use Rattle.board.specs.Held.{held};
ghost use Rattle.board.specs.Change.{Kept};
ghost use Rattle.player.specs.Play.{bad_move};
ghost use Rattle.player.specs.Run.{RanAs};

use crate::PlayRefusal;
use board::Place;
use board::cabinet::Cabinet;
use board::moves::legal;

// Plays all moves from a place, or says why the first bad one is refused.
pub fn run(cabinet: &Cabinet, start: Place, moves: &[u8]) -> Result<Place, PlayRefusal>
    requires { Kept cabinet.now.shape start.position start.h }
    ensures { RanAs cabinet.now.shape (held cabinet.now.shape start.position) moves.now result }
{
    let mut at = start;
    for (i, byte) in moves.iter().enumerate() {
        let m = usize::from(*byte);
        if !legal(cabinet.shape, at.position, m) {
            return Err(refused_move(*byte, i));
        }
        at = cabinet.go(at, m);
    }
    Ok(at)
}

// Why a bad move is refused.
pub fn refused_move(byte: u8, place: usize) -> PlayRefusal
    ensures { result ≡ bad_move byte place }
{
    if 3 < byte {
        PlayRefusal::NoMove(place)
    } else {
        PlayRefusal::OffGrid(place)
    }
}
