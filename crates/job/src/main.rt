// The job program: one job's text from standard input, its answer line to standard output.
//
// A text is at most 256 bytes, so 257 are asked for: a text that fills them is too long, and is refused as any other that is not of
// the grammar.

#![tactic(auto)]

ghost use Rattle.std.specs.Prelude.{◌≤◌, length, IfOk};

use jobline::answer::answer_line;
use std::io;
use std::io::Read;

// Reads until the buffer is full or the input ends, and says how many bytes now stand at its start.
// Of a shorter input `read_exact` doesn't say how much it read, and `read_to_end` needs the heap.
fn read_full(input: &mut impl Read, buffer: &mut [u8]) -> io::Result<usize>
    ensures { IfOk result (λ n. n ≤ length buffer.new) }
{
    let mut done = 0;
    while done < buffer.len() {
        let n = input.read(&mut buffer[done..])?;
        if n == 0 {
            break;
        }
        done += n;
    }
    Ok(done)
}

fn main(rt: HostRuntime) -> io::Result<()> {
    let mut text = [0u8; 257];
    let n = read_full(&mut rt.stdin(), &mut text)?;
    let mut line = [0u8; 160];
    let length = answer_line(&text[..n], &mut line).unwrap();
    rt.write_all(&line[..length])
}
