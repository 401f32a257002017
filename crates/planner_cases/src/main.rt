// Plans the boards that document 01 works by hand, as request E3 amends them, and its boundary cases; then the jobs of standard input,
// boards of all nine shapes.
// The buffers hold noise. A line for each: the answer's number, cell, length and visits; the plan's letters, `-` for none; whether the
// first 4 × (ceiling + 1) table numbers are all 0 afterwards; and whether everything else in both buffers is as it was. The file stdout
// has what each line must be.
//
// The file stdin has the jobs as the job program reads them, a line each: lines of tests/vectors/jobs-after-e5.txt, which has their
// answers too. Of each shape a plan at weight 1 over 1, a plan at another weight, and a refusal 10 after one visit, 10 after more, 11,
// 9 and 15; of 2 by 2, where that file has no other, both 10 are after one visit, and there is no 11.

#![tactic(auto)]

mod input;

ghost use Rattle.std.specs.Prelude.{◌≤◌, IfSome};

use crate::input::{next_number, read_cells};
use board::numbered::Numbered;
use planner::call::{plan, plan_short};
use planner::fields::{plan_length, visits};
use planner::{Plan, Refusal};
use std::io::Read;
use std::{array, io};

// Plans with the weight p over q, with the first `room` numbers of the table.
fn show(
    rt: &impl Print,
    width: u32,
    height: u32,
    cells: &[u8],
    ceiling: i32,
    budget: u32,
    p: u32,
    q: u32,
    room: usize,
) -> io::Result<()>
    requires { room ≤ 484 }
{
    let mut moves: [u8; 120] = array::from_fn(noise_byte);
    let mut table: [u16; 484] = array::from_fn(noise_number);
    let answer = plan(
        width,
        height,
        cells,
        ceiling,
        budget,
        p,
        q,
        &mut moves,
        &mut table[..room],
    );
    print_answer(rt, answer, &moves)?;
    print_buffers(rt, ceiling, plan_length(answer), &moves, &table)
}

// The same by the short call, at the weight 3 over 2.
fn show_short(
    rt: &impl Print,
    width: u32,
    height: u32,
    cells: &[u8],
    ceiling: i32,
    budget: u32,
) -> io::Result<()> {
    let mut moves: [u8; 120] = array::from_fn(noise_byte);
    let mut table: [u16; 484] = array::from_fn(noise_number);
    let answer = plan_short(
        width, height, cells, ceiling, budget, &mut moves, &mut table,
    );
    print_answer(rt, answer, &moves)?;
    print_buffers(rt, ceiling, plan_length(answer), &moves, &table)
}

// The noise: no byte is a move, and no number is 0 or a value of the search.
fn noise_byte(i: usize) -> u8 {
    (i % 251 + 4) as u8
}

fn noise_number(i: usize) -> u16 {
    (i % 1000 + 40000) as u16
}

fn print_answer(
    rt: &impl Print,
    answer: Result<Plan, Refusal>,
    moves: &[u8; 120],
) -> io::Result<()> {
    let number = answer.number();
    let cell = answer.place();
    let length = plan_length(answer);
    let visits = visits(answer);
    print!(rt; "{number} {cell} {length} {visits} ")?;
    if length == 0 {
        print!(rt; "-")?;
    }
    for m in moves.iter().take(length) {
        print_letter(rt, *m)?;
    }
    Ok(())
}

fn print_letter(rt: &impl Print, m: u8) -> io::Result<()> {
    match m {
        0 => print!(rt; "U"),
        1 => print!(rt; "L"),
        2 => print!(rt; "R"),
        3 => print!(rt; "D"),
        _ => print!(rt; "?"),
    }
}

// Where the table's first numbers are not zeros, they are among what must be as it was.
fn print_buffers(
    rt: &impl Print,
    ceiling: i32,
    length: usize,
    moves: &[u8; 120],
    table: &[u16; 484],
) -> io::Result<()> {
    let rows = rows_of(ceiling);
    let zeros = table.iter().take(rows).all(|n| *n == 0);
    print_yes(rt, zeros)?;
    let from = if zeros { rows } else { 0 };
    print_yes(
        rt,
        kept(length, moves, noise_byte) && kept(from, table, noise_number),
    )?;
    println!(rt)
}

fn print_yes(rt: &impl Print, yes: bool) -> io::Result<()> {
    let word = if yes { "yes" } else { "no" };
    print!(rt; " {word}")
}

// 4 × (ceiling + 1); the whole table for a ceiling that is refused.
fn rows_of(ceiling: i32) -> usize {
    match ceiling {
        0..=120 => 4 * (ceiling as usize + 1),
        _ => 484,
    }
}

// What stands in a buffer from place n on is the noise.
fn kept<T: PartialEq + Copy, F: Fn(usize) -> T>(n: usize, buffer: &[T], noise: F) -> bool
    requires { F.IsAlwaysCallable noise }
{
    buffer
        .iter()
        .enumerate()
        .skip(n)
        .all(|(i, x)| *x == noise(i))
}

// What is planned: width, height and cells, the ceiling, the budget, p and q, and the room.
type Case = (u32, u32, &'static [u8], i32, u32, u32, u32, usize);

// The worked table, in its order: weight 1 over 1, buffers long enough. Where the distance is above the ceiling it is 10 after one visit.
const WORKED: [Case; 14] = [
    (2, 2, &[0, 1, 2, 3], 0, 1, 1, 1, 484),
    (2, 2, &[1, 0, 2, 3], 1, 2, 1, 1, 484),
    (2, 2, &[1, 0, 2, 3], 1, 1, 1, 1, 484),
    (2, 2, &[1, 0, 2, 3], 0, 1, 1, 1, 484),
    (2, 2, &[3, 2, 1, 0], 6, 7, 1, 1, 484),
    (2, 2, &[3, 2, 1, 0], 5, 11, 1, 1, 484),
    (2, 2, &[3, 2, 1, 0], 5, 10, 1, 1, 484),
    (2, 2, &[0, 3, 1, 2], 4, 5, 1, 1, 484),
    (2, 2, &[0, 3, 1, 2], 3, 7, 1, 1, 484),
    (3, 2, &[0, 2, 1, 3, 5, 4], 2, 8, 1, 1, 484),
    (3, 2, &[0, 2, 1, 3, 5, 4], 2, 7, 1, 1, 484),
    (2, 2, &[0, 2, 1, 3], 6, 9, 1, 1, 484),
    (2, 2, &[0, 1, 1, 4], 6, 9, 1, 1, 484),
    (2, 2, &[0, 1, 1, 3], 6, 9, 1, 1, 484),
];

// The sentences under the table, in their order: the ceiling, the weight, the table's length.
const BOUNDARIES: [Case; 8] = [
    (2, 2, &[3, 2, 1, 0], -1, 7, 1, 1, 484),
    (2, 2, &[3, 2, 1, 0], 121, 7, 1, 1, 484),
    (5, 2, &[3, 2, 1, 0], -1, 7, 1, 1, 484),
    (2, 2, &[1, 0, 2, 3], 1, 2, 1, 2, 484),
    (2, 2, &[1, 0, 2, 3], 1, 2, 65, 1, 484),
    (2, 2, &[1, 0, 2, 3], 1, 2, 64, 1, 484),
    (2, 2, &[0, 1, 2, 3], 120, 1, 1, 1, 483),
    (2, 2, &[0, 1, 2, 3], 120, 1, 1, 1, 484),
];

// A call with two faults is refused for the one that is tested first.
const ORDER_OF_TESTS: [Case; 9] = [
    (2, 2, &[0, 1, 1, 4], -1, 0, 1, 2, 0),
    (2, 2, &[0, 2, 1, 3], 121, 0, 1, 2, 0),
    (2, 2, &[0, 2, 1, 3], 120, 0, 1, 2, 483),
    (2, 2, &[0, 2, 1, 3], 120, 1000001, 1, 2, 483),
    (2, 2, &[0, 2, 1, 3], 120, 1000000, 1, 0, 483),
    (2, 2, &[0, 2, 1, 3], 120, 1000000, 2, 2, 483),
    (2, 2, &[0, 2, 1, 3], 120, 1000000, 63, 35, 483),
    (2, 2, &[0, 2, 1, 3], 120, 1000000, 1, 1, 483),
    (2, 2, &[0, 2, 1, 3], 120, 1000000, 1, 1, 484),
];

// Plans the next job of standard input. No where there is none.
fn show_next(rt: &impl Print, input: &mut impl Read) -> io::Result<bool> {
    let width = next_number(input)?;
    let height = next_number(input)?;
    let Some(count) = cell_count(width, height) else {
        return Ok(false);
    };
    let mut cells = [0u8; 16];
    show_job(rt, input, width, height, &mut cells[..count])?;
    Ok(true)
}

// The rest of a job, whose cells fill the buffer.
fn show_job(
    rt: &impl Print,
    input: &mut impl Read,
    width: u32,
    height: u32,
    cells: &mut [u8],
) -> io::Result<()> {
    let ceiling = next_number(input)? as i32;
    let budget = next_number(input)?;
    let p = next_number(input)?;
    let q = next_number(input)?;
    read_cells(input, cells)?;
    show(rt, width, height, cells, ceiling, budget, p, q, 484)
}

// How many cells a cabinet has. None for sides that no cabinet has.
fn cell_count(width: u32, height: u32) -> Option<usize>
    ensures { IfSome result (λ n. n ≤ 16) }
{
    match (width, height) {
        (1..=4, 1..=4) => Some(width as usize * height as usize),
        _ => None,
    }
}

// Plans every job of standard input.
fn jobs(rt: &impl Print, input: &mut impl Read) -> io::Result<()> {
    for _ in 0..1000 {
        if !show_next(rt, input)? {
            break;
        }
    }
    Ok(())
}

fn main(rt: HostRuntime) -> io::Result<()> {
    for (width, height, cells, ceiling, budget, p, q, room) in WORKED {
        show(&rt, width, height, cells, ceiling, budget, p, q, room)?;
    }
    for (width, height, cells, ceiling, budget, p, q, room) in BOUNDARIES {
        show(&rt, width, height, cells, ceiling, budget, p, q, room)?;
    }
    for (width, height, cells, ceiling, budget, p, q, room) in ORDER_OF_TESTS {
        show(&rt, width, height, cells, ceiling, budget, p, q, room)?;
    }
    show_short(&rt, 2, 2, &[3, 2, 1, 0], 6, 7)?;
    show_short(&rt, 2, 3, &[5, 2, 1, 0, 3, 4], 20, 18)?;
    jobs(&rt, &mut rt.stdin())
}
