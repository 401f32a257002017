// Answers many stored texts by the job program's own function: standard input holds the texts one after the other, each behind its
// length (two bytes, low byte first), and each answer line goes to standard output. The file stdin ends with jobs of all nine shapes,
// lines of tests/vectors/jobs-after-e5.txt with the answers that stand there: of each shape a plan at weight 1 over 1, a plan at another
// weight, and a refusal 10 after one visit, 10 after more, 11, 9 and 15; of 2 by 2 both 10 are after one visit, and there is no 11.

#![tactic(auto)]

use jobline::answer::answer_line;
use std::io;
use std::io::{ErrorKind, Read};

// Answers the next text. No where the input ends, or where it is no text behind its length.
fn answer_next(rt: &impl Print, input: &mut impl Read) -> io::Result<bool> {
    let mut head = [0u8; 2];
    if !read_full(input, &mut head)? {
        return Ok(false);
    }
    let length = usize::from(u16::from_le_bytes(head));
    if length > 512 {
        return Ok(false);
    }
    let mut text = [0u8; 512];
    answer_text(rt, input, &mut text[..length])
}

// Fills the buffer with a text and answers it.
fn answer_text(rt: &impl Print, input: &mut impl Read, text: &mut [u8]) -> io::Result<bool> {
    if !read_full(input, text)? {
        return Ok(false);
    }
    let mut line = [0u8; 160];
    let length = answer_line(text, &mut line).unwrap();
    rt.write_all(&line[..length])?;
    Ok(true)
}

// Fills the buffer. No where the input ends first.
fn read_full(input: &mut impl Read, buffer: &mut [u8]) -> io::Result<bool> {
    match input.read_exact(buffer) {
        Ok(()) => Ok(true),
        Err(e) if e.kind() == ErrorKind::UnexpectedEof => Ok(false),
        Err(e) => Err(e),
    }
}

fn main(rt: HostRuntime) -> io::Result<()> {
    let mut input = rt.stdin();
    for _ in 0..1000000 {
        if !answer_next(&rt, &mut input)? {
            break;
        }
    }
    Ok(())
}
