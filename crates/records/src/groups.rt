// Numbers as groups of seven bits: how many bytes they take, and how they are put into a lent buffer from a place on.
ghost use Rattle.std.specs.Prelude.{◌≡◌, ◌+◌, ◌^◌, ◌<◌, ◌≤◌, length, sum_by};
ghost use Rattle.records.specs.Groups.{groups, spelled};
ghost use Rattle.records.specs.Put.{Put};

// How many groups a number has.
pub fn group_count(n: u32) -> usize
    ensures { result ≡ length (groups n) }
{
    n.checked_ilog(128).unwrap_or(0) as usize + 1
}

// How many groups numbers have together.
pub fn groups_count(numbers: &[u32]) -> usize
    requires { sum_by (λ n. length (groups n)) numbers.now < 2 ^ 64 }
    ensures { result ≡ sum_by (λ n. length (groups n)) numbers.now }
{
    numbers.iter().map(|&n| group_count(n)).sum()
}

// Puts a number, from its last group but one to the first and then the last, and answers the place behind it. So do the functions below
// with what they put. A place and not the rest of the buffer: a rest that is lent on needs a starred clause in each on how it comes back.
pub fn put_number(n: u32, out: &mut [u8], at: usize) -> usize
    requires { at + length (groups n) ≤ length out.old }
    ensures { Put (groups n) out.old at out.new result }
{
    let end = at + group_count(n);
    let last = end - 1;
    let mut rest = n / 128;
    for place in (at..last).rev() {
        out[place] = (128 + rest % 128) as u8;
        rest /= 128;
    }
    out[last] = (n % 128) as u8;
    end
}

// Puts numbers, one behind the other.
pub fn put_numbers(numbers: &[u32], out: &mut [u8], at: usize) -> usize
    requires { at + length (spelled numbers.now) ≤ length out.old }
    ensures { Put (spelled numbers.now) out.old at out.new result }
{
    let mut next = at;
    for &n in numbers {
        next = put_number(n, out, next);
    }
    next
}
