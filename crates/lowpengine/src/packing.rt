// An answer as one number: of a plan four fields, and else the number at bit 0 and one detail from bit 8 on.
ghost use Rattle.std.specs.Prelude.{◌≡◌, ◌+◌, ◌*◌, ◌^◌, ◌<◌, ◌≤◌, min};
ghost use Rattle.board.specs.Numbered.{of_refused};
ghost use Rattle.planner.specs.Answer.{number, cell, plan_length};
ghost use Rattle.lowpengine.specs.Packed.{Apart, packed, packed_plan, farthest, detail, packed_play, packed_record, Narrow, NarrowIn};
ghost use Rattle.lowpengine.specs.Packed.{packed_numbers, packed_reading, packed_reach};

use crate::reaching::reached;
use board::numbered::Numbered;
use planner::fields::{plan_length, visits};
use planner::{Plan, Refusal};
use player::PlayRefusal;
use records::{Numbers, PlanRefusal, ReadRefusal};

// The largest place that is told: no list that long fits an address space.
const FARTHEST: usize = (1 << 56) - 1;

pub fn packed_plan(answer: Result<Plan, Refusal>) -> u64
    requires { Apart (number answer) (cell answer) (plan_length answer) }
    ensures { result ≡ packed_plan answer }
{
    packed(
        answer.number(),
        answer.place(),
        plan_length(answer),
        visits(answer),
    )
}

// The four fields at bits 0, 8, 16 and 32.
fn packed(number: u32, cell: usize, length: usize, visits: u32) -> u64
    requires { Apart number cell length }
    ensures { result ≡ packed number cell length visits }
{
    let low = u64::from(number) + 256 * (cell as u64);
    low + 65536 * (length as u64) + 4294967296 * u64::from(visits)
}

// The detail is 1 for a list that ends at the goal.
pub fn packed_play(answer: Result<bool, PlayRefusal>) -> u64
    ensures { result ≡ packed_play answer }
{
    with_detail(answer.map(u64::from))
}

// The detail is the record's length.
pub fn packed_record(answer: Result<usize, PlanRefusal>) -> u64
    ensures { result ≡ packed_record answer }
{
    with_detail(answer.map(told))
}

// The detail is the numbers that were read.
pub fn packed_reading(answer: Result<Numbers, ReadRefusal>) -> u64
    requires { NarrowIn answer }
    ensures { result ≡ packed_reading answer }
{
    with_detail(answer.map(|numbers| packed_numbers(numbers)))
}

// There is no detail where nothing is refused.
pub fn packed_reach(width: u32, height: u32, board: &[u8]) -> u64
    ensures { result ≡ packed_reach width height board.now }
{
    match reached(width, height, board) {
        Ok(()) => 0,
        Err(why) => with_detail(Err(why)),
    }
}

// From the highest field down, each below what stands above it.
fn packed_numbers(n: Numbers) -> u64
    requires { Narrow n }
    ensures { result ≡ packed_numbers n }
{
    let length = n.length as u64 + 128 * u64::from(n.visits);
    let q = u64::from(n.q) + 128 * length;
    let p = u64::from(n.p) + 128 * q;
    let ceiling = u64::from(n.ceiling) + 128 * p;
    let height = u64::from(n.height) + 8 * ceiling;
    u64::from(n.width) + 8 * height
}

// The number at bit 0, and from bit 8 on what is told of an answer, or a refusal's place.
fn with_detail<R: Numbered + Copy>(answer: Result<u64, R>) -> u64
    requires number { of_refused R.number_of answer < 2 ^ 8 }
    requires near { detail (λ d. d) R.place_of answer ≤ farthest }
    ensures { result ≡ of_refused R.number_of answer + 2 ^ 8 * detail (λ d. d) R.place_of answer }
{
    let number = u64::from(answer.number());
    let detail = match answer {
        Ok(detail) => detail,
        Err(why) => told(why.place()),
    };
    number + 256 * detail
}

// How a place or a length is told.
fn told(place: usize) -> u64
    ensures { result ≡ min place farthest }
{
    place.min(FARTHEST) as u64
}
