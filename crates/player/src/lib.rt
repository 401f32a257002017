// The player: plays a list of moves on a board, and says where it ends or which move is bad.
//
// specs/Play.antt has the whole answer and the output afterwards; proofs/Promises.antt says both in terms of the board's own legal
// lists, and proofs/Settled.antt that nothing is left open. `play` is the call; `list` runs the moves; `answers` has the number and the
// place of a refusal.

#![tactic(auto)]

mod answers;
mod list;

ghost use Rattle.std.specs.Prelude.{◌≡◌};
ghost use Rattle.player.specs.declared.PlayRefusal.TheVariants.{Board};
ghost use Rattle.player.specs.Play.{PlayedAs};

use crate::list::run;
use board::cabinet::Cabinet;
use board::faults::tested;
use board::held::{cell_count, hold, put};
use board::{Fault, Place};

// Why a list is not played: the paper's numbers, in its order.
#[derive(Clone, Copy, Debug, PartialEq, Eq)]
pub enum PlayRefusal {
    // 1 to 4: a fault of the width, the height or the board
    Board(Fault),
    // 8: the output is shorter than n
    ShortOutput,
    // 13: a byte above 3; its place in the list
    NoMove(usize),
    // 14: a move off the grid; its place in the list
    OffGrid(usize),
}

impl From<Fault> for PlayRefusal {
    ghost from_gives = { λ fault refusal. refusal ≡ Board fault };

    fn from(fault: Fault) -> PlayRefusal {
        PlayRefusal::Board(fault)
    }
}

// Plays the moves on the board: whether they end at the goal, with the end board at the start of the output. A refusal leaves the output as
// it was found. Takes any input. The first board is summed here, and its distance is kept from then on; the output is written once the
// whole list was found good.
pub fn play(
    width: u32,
    height: u32,
    board: &[u8],
    moves: &[u8],
    out: &mut [u8],
) -> Result<bool, PlayRefusal>
    ensures { PlayedAs width height board.now moves.now out.old result out.new }
{
    let shape = tested(width, height, board)?;
    if out.len() < cell_count(shape) {
        return Err(PlayRefusal::ShortOutput);
    }
    let start = hold(shape, board);
    let cabinet = Cabinet::new(shape);
    let h = cabinet.distance(start);
    let place = Place { position: start, h };
    let end = run(&cabinet, place, moves)?;
    put(shape, end.position, out);
    Ok(end.h == 0)
}
