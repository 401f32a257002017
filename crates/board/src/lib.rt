// The rules of the cabinet: shapes, boards, moves, the goal, the distance, the parity of test 9.
//
// Definitions are in specs/, one file a rule; the laws that other parts rest on are in proofs/, listed in proofs/Laws.antt.
// A board is tested once, by `faults::tested`, and from then on held in a `Position`.

#![tactic(auto)]

pub mod cabinet;
pub mod distance;
pub mod faults;
pub mod held;
pub mod moves;
pub mod numbered;
pub mod parity;
mod table;

// A cabinet's width and height, any two numbers: the rules speak of a shape before test 1 (specs/Faults.antt, `tested`), so that where a
// function has a shape alone, `GoodShape` is its clause and no invariant of `Shape`. A `Cabinet` keeps it.
#[derive(Clone, Copy, Debug, PartialEq, Eq)]
pub struct Shape {
    pub width: usize,
    pub height: usize,
}

// A board by value in one number: cell i in the four bits from 4i on, and `empty` is the cell that holds 0.
#[derive(Clone, Copy, Debug, PartialEq, Eq)]
pub struct Position {
    pub cells: u64,
    pub empty: usize,
}

// A position and its distance, which whoever makes moves keeps. That these belong together stays a clause, `Kept`, since it is so for a
// shape: a place with its cabinet costs the search a tenth (32.4 million visits a second against 36.2).
#[derive(Clone, Copy, Debug, PartialEq, Eq)]
pub struct Place {
    pub position: Position,
    pub h: usize,
}

// A position after a legal move, and how the move changed the distance: -1 or +1, a number and no enum, since it is what is added
// (specs/Change.antt, `MovedBy`).
#[derive(Clone, Copy, Debug, PartialEq, Eq)]
pub struct Moved {
    pub position: Position,
    pub change: i8,
}

// What is wrong with a board as given: the paper's 1 to 4, in its order.
#[derive(Clone, Copy, Debug, PartialEq, Eq)]
pub enum Fault {
    // 1: width or height is not 2 to 4
    BadShape,
    // 2: the board's length is not width × height
    BadLength,
    // 3: some byte is n or more; the first such cell
    TooLarge(usize),
    // 4: a value stands twice; the first cell that repeats an earlier one
    Repeated(usize),
}
