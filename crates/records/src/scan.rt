// Numbers as they stand in a record: what is found at a place, the value with the place behind it or the fault with its place.
// The place is handed on by value: with a reader that is moved along, each clause would also have to say that its bytes stay.
ghost use Rattle.std.specs.Prelude.{◌≡◌, length};
ghost use Rattle.records.specs.Scan.{ended, groups_at, number_at, side_at, length_at, numbers_at, TestedBy};
ghost use Rattle.records.specs.Read.{filled};

use crate::ReadRefusal;
use board::faults::bad_side;

// The groups of a number, of which five are looked at.
fn groups_at(bytes: &[u8], first: usize) -> Result<(u32, usize), ReadRefusal>
    ensures { result ≡ groups_at 5 bytes.now first 0 first }
{
    let mut value: u64 = 0;
    let mut at = first;
    for _count in 0..5u32 {
        let Some(&b) = bytes.get(at) else {
            return Err(ReadRefusal::CutShort(bytes.len()));
        };
        value = value * 128 + u64::from(b % 128);
        at += 1;
        if b < 128 {
            return ended(first, value, at);
        }
    }
    Err(ReadRefusal::BadNumber(first))
}

// A number that began at `first` and has ended before `next`.
fn ended(first: usize, value: u64, next: usize) -> Result<(u32, usize), ReadRefusal>
    ensures { result ≡ ended first value next }
{
    match u32::try_from(value) {
        Ok(value) => Ok((value, next)),
        Err(_) => Err(ReadRefusal::BadNumber(first)),
    }
}

// The number at a place.
pub fn number_at(bytes: &[u8], at: usize) -> Result<(u32, usize), ReadRefusal>
    ensures { result ≡ number_at bytes.now at }
{
    if bytes.get(at) == Some(&128) {
        return Err(ReadRefusal::BadNumber(at));
    }
    groups_at(bytes, at)
}

// The number at a place, or this refusal where a test holds of it.
fn number_but<F: Fn(u32) -> bool>(
    bytes: &[u8],
    at: usize,
    bad: F,
    why: ReadRefusal,
) -> Result<(u32, usize), ReadRefusal>
    requires { F.IsAlwaysCallable bad }
    ensures { TestedBy (F.post bad) why (number_at bytes.now at) result }
{
    let (value, next) = number_at(bytes, at)?;
    if bad(value) {
        return Err(why);
    }
    Ok((value, next))
}

// The width or height at a place.
pub fn side_at(bytes: &[u8], at: usize) -> Result<(u32, usize), ReadRefusal>
    ensures { result ≡ side_at bytes.now at }
{
    number_but(bytes, at, bad_side, ReadRefusal::BadSide(at))
}

// The length at a place.
pub fn length_at(bytes: &[u8], at: usize) -> Result<(u32, usize), ReadRefusal>
    ensures { result ≡ length_at bytes.now at }
{
    number_but(bytes, at, |length| 120 < length, ReadRefusal::LongList(at))
}

// Fills `numbers` with those from a place on, and answers the place behind them.
pub fn numbers_at(bytes: &[u8], from: usize, numbers: &mut [u32]) -> Result<usize, ReadRefusal>
    ensures { numbers_at (length numbers.old) bytes.now from ≡ filled numbers.new result }
{
    let mut at = from;
    for number in numbers.iter_mut() {
        let (value, next) = number_at(bytes, at)?;
        *number = value;
        at = next;
    }
    Ok(at)
}
