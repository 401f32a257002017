// A job's text to its answer line: the text is read, the job is planned, and the answer's line is written.
ghost use Rattle.std.specs.Prelude.{◌≤◌, length, Some, IsSome};
ghost use Rattle.planner.specs.Answer.{cell, plan_length};
ghost use Rattle.jobline.specs.Scan.{read_job};
ghost use Rattle.jobline.specs.Put.{LineAnswered};
ghost use Rattle.jobline.specs.Grammar.{job_of};
ghost use Rattle.jobline.specs.Answer.{line_of, answer_to};

use crate::read::{Numbers, read_job};
use crate::write::{write_plan, write_refusal};
use board::numbered::Numbered;
use planner::call::plan;
use planner::fields::visits;
use planner::{Plan, Refusal};

// Puts the line that the text is answered with at the start of `out`, and says how long it is; none where `out` is too short for it.
// 138 bytes are enough for every line.
pub fn answer_line(text: &[u8], out: &mut [u8]) -> Option<usize>
    ensures line { LineAnswered (answer_to (read_job text.now)) out.old result out.new }
    ensures there { 138 ≤ length out.old → IsSome result }
{
    let mut cells = [0u8; 32];
    match read_job(text, &mut cells) {
        Ok((numbers, count)) => answer_job(numbers, &cells[..count], out),
        Err(why) => write_refusal(why.number(), 0, 0, out),
    }
}

// Answers a job. The program keeps a table of 484 numbers and 120 move bytes, both zeroed first.
fn answer_job(numbers: Numbers, cells: &[u8], out: &mut [u8]) -> Option<usize>
    ensures { LineAnswered (answer_to (Some (job_of numbers cells.now))) out.old result out.new }
{
    let mut moves = [0u8; 120];
    let mut table = [0u16; 484];
    let answer = plan(
        numbers.width,
        numbers.height,
        cells,
        numbers.ceiling,
        numbers.budget,
        numbers.p,
        numbers.q,
        &mut moves,
        &mut table,
    );
    write_answer(answer, &moves, out)
}

#[tactic(auto, unfolding(crate::specs::Answer::line_of))]
fn write_answer(answer: Result<Plan, Refusal>, moves: &[u8], out: &mut [u8]) -> Option<usize>
    requires { (plan_length answer ≤ length moves.now) × (cell answer ≤ 15) }
    ensures { LineAnswered (line_of answer moves.now) out.old result out.new }
{
    match answer {
        Ok(plan) => write_plan(plan.visits, &moves[..plan.length], out),
        Err(why) => write_refusal(why.number(), why.place() as u32, visits(answer), out),
    }
}
