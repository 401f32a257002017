// The numbers on standard input, one after the other: each is its digits, and the byte behind them is passed over.
ghost use Rattle.std.specs.Prelude.{◌≡◌, ◌≤◌, length, IfOk, IfSome};

use std::io;
use std::io::Read;

// The next number; 0 at the end, and no Option: of an input that ends within a job the program prints what it printed. No number of a job
// is above 1,000,000.
pub fn next_number(input: &mut impl Read) -> io::Result<u32>
    ensures { IfOk result (λ n. n ≤ 10000009) }
{
    let mut n: u32 = 0;
    for _ in 0..10 {
        let Some(d) = next_digit(input)? else {
            return Ok(n);
        };
        if 1000000 < n {
            return Ok(n);
        }
        n = 10 * n + d;
    }
    Ok(n)
}

// As many of the next numbers as the buffer holds.
pub fn read_cells(input: &mut impl Read, cells: &mut [u8]) -> io::Result<()>
    ensures { length cells.new ≡ length cells.old }
{
    for cell in cells {
        *cell = (next_number(input)? % 256) as u8;
    }
    Ok(())
}

// The next byte as a digit. None where it is none, and at the end.
fn next_digit(input: &mut impl Read) -> io::Result<Option<u32>>
    ensures { IfOk result (λ d. IfSome d (λ k. k ≤ 9)) }
{
    let mut one = [0u8; 1];
    input.read(&mut one)?;
    Ok(digit(one[0]))
}

fn digit(byte: u8) -> Option<u32>
    ensures { IfSome result (λ k. k ≤ 9) }
{
    match byte {
        b'0'..=b'9' => Some(u32::from(byte - b'0')),
        _ => None,
    }
}
