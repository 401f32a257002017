// Runs the board's functions on boards of each shape and prints a line for each: width, height, the fault's number and cell; and for
// a sound board its distance, whether it is the goal (distance 0), whether it is odd, its legal moves (U, L, R, D) and the board after the
// first of them. The file stdout has what each line must be.

#![tactic(auto)]

ghost use Rattle.board.specs.Shape.{GoodShape};
ghost use Rattle.board.specs.Board.{IsBoard};
ghost use Rattle.board.specs.Held.{Holds};

use board::cabinet::Cabinet;
use board::faults::tested;
use board::held::{cell_count, hold, number_at};
use board::moves::legal;
use board::numbered::Numbered;
use board::parity::is_odd;
use board::{Position, Shape};
use std::io;

fn show(rt: &impl Print, width: u32, height: u32, cells: &[u8]) -> io::Result<()> {
    let answer = tested(width, height, cells);
    let number = answer.number();
    let place = answer.place();
    print!(rt; "{width} {height} {number} {place}")?;
    if let Ok(shape) = answer {
        show_sound(rt, shape, cells)?;
    }
    println!(rt)
}

fn show_sound(rt: &impl Print, shape: Shape, cells: &[u8]) -> io::Result<()>
    requires good_shape { GoodShape shape }
    requires board { IsBoard shape cells.now }
{
    let p = hold(shape, cells);
    let cabinet = Cabinet::new(shape);
    let h = cabinet.distance(p);
    let goal = yes(h == 0);
    let odd = yes(is_odd(shape, p));
    print!(rt; " {h} {goal} {odd}")?;
    show_moves(rt, shape, p)?;
    show_after_first(rt, &cabinet, p)
}

fn show_moves(rt: &impl Print, shape: Shape, p: Position) -> io::Result<()>
    requires { Holds shape p }
{
    print!(rt; " ")?;
    for m in 0..4 {
        if legal(shape, p, m) {
            let letter = letter(m);
            print!(rt; "{letter}")?;
        }
    }
    Ok(())
}

// The board after the first legal move.
fn show_after_first(rt: &impl Print, cabinet: &Cabinet, p: Position) -> io::Result<()>
    requires { Holds cabinet.now.shape p }
{
    for m in 0..4 {
        if legal(cabinet.shape, p, m) {
            let next = cabinet.after(p, m);
            return print_cells(rt, cabinet.shape, next.position);
        }
    }
    Ok(())
}

fn print_cells(rt: &impl Print, shape: Shape, p: Position) -> io::Result<()>
    requires { GoodShape shape }
{
    for i in 0..cell_count(shape) {
        let number = number_at(p, i);
        print!(rt; " {number}")?;
    }
    Ok(())
}

fn yes(answer: bool) -> &'static str {
    if answer { "yes" } else { "no" }
}

fn letter(m: usize) -> char {
    match m {
        0 => 'U',
        1 => 'L',
        2 => 'R',
        _ => 'D',
    }
}

// Width, height and cells: sound boards of each shape.
const SOUND: [(u32, u32, &[u8]); 45] = [
    (2, 2, &[0, 1, 2, 3]),
    (2, 2, &[3, 2, 1, 0]),
    (2, 2, &[3, 1, 0, 2]),
    (2, 2, &[1, 2, 3, 0]),
    (2, 2, &[1, 0, 3, 2]),
    (2, 3, &[0, 1, 2, 3, 4, 5]),
    (2, 3, &[5, 4, 3, 2, 1, 0]),
    (2, 3, &[2, 5, 3, 0, 1, 4]),
    (2, 3, &[2, 5, 4, 1, 0, 3]),
    (2, 3, &[1, 2, 3, 5, 4, 0]),
    (2, 4, &[0, 1, 2, 3, 4, 5, 6, 7]),
    (2, 4, &[7, 6, 5, 4, 3, 2, 1, 0]),
    (2, 4, &[4, 2, 3, 5, 7, 1, 0, 6]),
    (2, 4, &[1, 5, 3, 7, 6, 0, 4, 2]),
    (2, 4, &[5, 3, 0, 2, 7, 6, 4, 1]),
    (3, 2, &[0, 1, 2, 3, 4, 5]),
    (3, 2, &[5, 4, 3, 2, 1, 0]),
    (3, 2, &[5, 2, 3, 1, 0, 4]),
    (3, 2, &[0, 5, 1, 4, 3, 2]),
    (3, 2, &[2, 3, 0, 4, 5, 1]),
    (3, 3, &[0, 1, 2, 3, 4, 5, 6, 7, 8]),
    (3, 3, &[8, 7, 6, 5, 4, 3, 2, 1, 0]),
    (3, 3, &[1, 0, 4, 6, 3, 5, 2, 7, 8]),
    (3, 3, &[5, 0, 4, 3, 7, 2, 8, 6, 1]),
    (3, 3, &[0, 8, 4, 3, 6, 7, 2, 5, 1]),
    (3, 4, &[0, 1, 2, 3, 4, 5, 6, 7, 8, 9, 10, 11]),
    (3, 4, &[11, 10, 9, 8, 7, 6, 5, 4, 3, 2, 1, 0]),
    (3, 4, &[6, 9, 8, 3, 2, 5, 0, 10, 7, 4, 11, 1]),
    (3, 4, &[6, 2, 8, 3, 9, 4, 1, 11, 7, 0, 5, 10]),
    (3, 4, &[11, 10, 5, 1, 0, 9, 7, 8, 6, 3, 2, 4]),
    (4, 2, &[0, 1, 2, 3, 4, 5, 6, 7]),
    (4, 2, &[7, 6, 5, 4, 3, 2, 1, 0]),
    (4, 2, &[0, 6, 5, 2, 7, 3, 1, 4]),
    (4, 2, &[6, 2, 0, 4, 1, 3, 7, 5]),
    (4, 2, &[7, 3, 4, 0, 6, 5, 1, 2]),
    (4, 3, &[0, 1, 2, 3, 4, 5, 6, 7, 8, 9, 10, 11]),
    (4, 3, &[11, 10, 9, 8, 7, 6, 5, 4, 3, 2, 1, 0]),
    (4, 3, &[1, 3, 9, 5, 7, 8, 10, 6, 2, 0, 11, 4]),
    (4, 3, &[4, 1, 2, 5, 0, 11, 3, 9, 6, 8, 10, 7]),
    (4, 3, &[6, 4, 8, 5, 2, 11, 9, 7, 10, 1, 3, 0]),
    (
        4,
        4,
        &[0, 1, 2, 3, 4, 5, 6, 7, 8, 9, 10, 11, 12, 13, 14, 15],
    ),
    (
        4,
        4,
        &[15, 14, 13, 12, 11, 10, 9, 8, 7, 6, 5, 4, 3, 2, 1, 0],
    ),
    (
        4,
        4,
        &[10, 7, 14, 15, 2, 12, 11, 6, 3, 13, 0, 9, 5, 1, 8, 4],
    ),
    (
        4,
        4,
        &[3, 5, 6, 8, 2, 0, 9, 13, 4, 10, 11, 12, 7, 14, 1, 15],
    ),
    (
        4,
        4,
        &[14, 1, 6, 7, 11, 9, 12, 4, 10, 15, 13, 2, 5, 8, 3, 0],
    ),
];

// Boards with a fault of each kind.
const FAULTY: [(u32, u32, &[u8]); 21] = [
    (1, 2, &[0, 1]),
    (0, 0, &[]),
    (
        5,
        4,
        &[
            0, 1, 2, 3, 4, 5, 6, 7, 8, 9, 10, 11, 12, 13, 14, 15, 16, 17, 18, 19,
        ],
    ),
    (2, 5, &[0, 1, 2, 3, 4, 5, 6, 7, 8, 9]),
    (258, 2, &[0, 1, 2, 3]),
    (4, 4294967295, &[0]),
    (2, 2, &[0, 1, 2]),
    (3, 3, &[0, 1, 2, 3, 4, 5, 6, 7, 8, 9]),
    (4, 4, &[0, 1, 2, 3, 4, 5, 6, 7, 8, 9, 10, 11, 12, 13, 14]),
    (4, 2, &[]),
    (2, 2, &[0, 1, 1, 4]),
    (2, 2, &[4, 4, 4, 4]),
    (2, 3, &[0, 1, 2, 3, 4, 6]),
    (3, 2, &[0, 255, 2, 3, 6, 5]),
    (
        4,
        4,
        &[0, 0, 2, 3, 4, 5, 6, 7, 8, 9, 10, 11, 12, 13, 14, 16],
    ),
    (2, 2, &[0, 1, 1, 3]),
    (2, 2, &[3, 3, 3, 3]),
    (2, 4, &[7, 6, 5, 4, 3, 2, 1, 7]),
    (4, 2, &[1, 2, 3, 4, 5, 6, 7, 1]),
    (4, 4, &[0, 1, 2, 3, 4, 5, 6, 7, 8, 9, 10, 11, 12, 13, 14, 0]),
    (3, 4, &[11, 10, 9, 8, 7, 6, 7, 11, 0, 0, 1, 2]),
];

fn main(rt: HostRuntime) -> io::Result<()> {
    for (width, height, cells) in SOUND {
        show(&rt, width, height, cells)?;
    }
    for (width, height, cells) in FAULTY {
        show(&rt, width, height, cells)?;
    }
    Ok(())
}
