// Plays lists of moves and prints a line for each: the answer's number and place, yes or no, and the sixteen bytes of the output
// afterwards, which were 99 before. The file stdout has what each line must be.
//
// Moves: 0 up, 1 left, 2 right, 3 down.

#![tactic(auto)]

ghost use Rattle.std.specs.Prelude.{◌≤◌};

use board::numbered::Numbered;
use player::play;
use std::io;

// Plays one list, with an output of `room` bytes.
fn show(
    rt: &impl Print,
    width: u32,
    height: u32,
    cells: &[u8],
    moves: &[u8],
    room: usize,
) -> io::Result<()>
    requires { room ≤ 16 }
{
    let mut out = [99u8; 16];
    let answer = play(width, height, cells, moves, &mut out[..room]);
    let number = answer.number();
    let place = answer.place();
    let goal = if answer.unwrap_or(false) { "yes" } else { "no" };
    print!(rt; "{number} {place} {goal}")?;
    for cell in &out {
        print!(rt; " {cell}")?;
    }
    println!(rt)
}

// The plans of the boards worked by hand, and lists that are no plans.
const WORKED: [(u32, u32, &[u8], &[u8], usize); 6] = [
    (2, 2, &[0, 1, 2, 3], &[], 16),
    (2, 2, &[1, 0, 2, 3], &[1], 16),
    (2, 2, &[3, 2, 1, 0], &[0, 1, 3, 2, 0, 1], 16),
    (2, 2, &[3, 2, 1, 0], &[1, 0, 2, 3, 1, 0], 4),
    (2, 2, &[0, 3, 1, 2], &[3, 2, 0, 1], 5),
    (2, 2, &[0, 3, 1, 2], &[3, 2, 0], 16),
];

// Other cabinets.
const LARGER: [(u32, u32, &[u8], &[u8], usize); 8] = [
    (3, 2, &[0, 2, 1, 3, 5, 4], &[2, 3, 1, 0], 16),
    (2, 3, &[1, 3, 0, 2, 4, 5], &[0, 2, 3, 3, 1, 0], 6),
    (4, 2, &[1, 2, 3, 7, 4, 5, 6, 0], &[0, 1, 1, 1], 16),
    (2, 4, &[2, 1, 4, 3, 6, 5, 0, 7], &[0, 0, 0], 8),
    (3, 3, &[1, 4, 2, 3, 0, 5, 6, 7, 8], &[0, 1], 9),
    (
        4,
        4,
        &[1, 2, 3, 7, 4, 5, 6, 11, 8, 9, 10, 15, 12, 13, 14, 0],
        &[0, 0, 0, 1, 1, 1],
        16,
    ),
    (
        4,
        3,
        &[4, 1, 2, 3, 8, 5, 6, 7, 0, 9, 10, 11],
        &[0, 0, 2, 1],
        12,
    ),
    (
        3,
        4,
        &[3, 1, 2, 6, 4, 5, 9, 7, 8, 0, 10, 11],
        &[0, 0, 0, 3],
        16,
    ),
];

// A refusal of each kind, and the order of the tests.
const REFUSED: [(u32, u32, &[u8], &[u8], usize); 19] = [
    (1, 2, &[0, 1], &[4], 0),
    (5, 2, &[0, 1, 2, 3, 4, 5, 6, 7, 8, 9], &[], 16),
    (2, 258, &[0, 1, 2, 3], &[], 16),
    (3, 2, &[0, 1, 2, 3, 4], &[4], 0),
    (2, 2, &[0, 1, 2, 3, 4], &[], 16),
    (2, 2, &[0, 1, 1, 4], &[4], 0),
    (
        4,
        4,
        &[15, 14, 13, 12, 11, 10, 9, 8, 7, 6, 5, 4, 3, 2, 255, 16],
        &[],
        16,
    ),
    (2, 2, &[0, 1, 1, 3], &[4], 0),
    (2, 4, &[7, 6, 5, 4, 3, 2, 1, 7], &[], 16),
    (2, 2, &[0, 1, 2, 3], &[4], 3),
    (
        4,
        4,
        &[0, 1, 2, 3, 4, 5, 6, 7, 8, 9, 10, 11, 12, 13, 14, 15],
        &[0],
        15,
    ),
    (2, 2, &[0, 1, 2, 3], &[4], 16),
    (2, 2, &[0, 1, 2, 3], &[2, 3, 255, 0], 16),
    (4, 2, &[0, 1, 2, 3, 4, 5, 6, 7], &[2, 2, 2, 3, 1, 9], 16),
    (2, 2, &[0, 1, 2, 3], &[0], 4),
    (2, 2, &[0, 1, 2, 3], &[1], 16),
    (3, 2, &[0, 1, 2, 3, 4, 5], &[2, 2, 2, 4], 16),
    (2, 3, &[0, 1, 2, 3, 4, 5], &[3, 3, 3], 16),
    (
        4,
        4,
        &[0, 1, 2, 3, 4, 5, 6, 7, 8, 9, 10, 11, 12, 13, 14, 15],
        &[3, 3, 3, 2, 2, 2, 3],
        16,
    ),
];

// A million moves, right, down, left, up, and again; the last of them as given.
fn million(rt: &impl Print, last: u8) -> io::Result<()> {
    let mut moves = [0u8; 1000000];
    for (i, m) in moves.iter_mut().enumerate() {
        *m = [2, 3, 1, 0][i % 4];
    }
    moves[999999] = last;
    show(rt, 2, 2, &[0, 1, 2, 3], &moves, 16)
}

fn main(rt: HostRuntime) -> io::Result<()> {
    for (width, height, cells, moves, room) in WORKED {
        show(&rt, width, height, cells, moves, room)?;
    }
    for (width, height, cells, moves, room) in LARGER {
        show(&rt, width, height, cells, moves, room)?;
    }
    for (width, height, cells, moves, room) in REFUSED {
        show(&rt, width, height, cells, moves, room)?;
    }
    million(&rt, 0)?;
    million(&rt, 4)?;
    million(&rt, 3)
}
