// Writes the line of an answer, piece by piece, each behind the one before.
// The line's length is computed first, so that a buffer with too little room stays as it was found.
//
// `write!` with a Display of the answer can't keep that promise: std's clauses of fmt say what an Ok has written, and nothing of when an
// Err comes or of what it leaves in the buffer. So each piece is a method that has no Err.
ghost use Rattle.std.specs.Prelude.{◌≡◌, ◌≤◌, ◌∷◌, [], map, length};
ghost use Rattle.jobline.specs.Line.{decimal, letter, letters, opening, plan_line, refused_line};
ghost use Rattle.jobline.specs.Put.{HasRoom, Wrote, LineAnswered};

// How many digits a number has.
fn places(n: usize) -> usize
    ensures value { result ≡ length (decimal n) }
    ensures few { result ≤ 20 }
{
    n.checked_ilog10().unwrap_or(0) as usize + 1
}

// The byte of a move's letter. Moves are bytes, as the planner gives them to C too.
fn letter_of(m: u8) -> u8
    ensures { result ≡ letter m }
{
    match m {
        0 => b'U',
        1 => b'L',
        2 => b'R',
        3 => b'D',
        _ => b'?',
    }
}

// A line in the making: the buffer that it is put into, and the place behind what stands there so far.
#[derive(Drop)]
struct Line<'a> {
    out: &'a mut [u8],
    at: usize,
}

// Each puts a piece behind what stands there.
impl Line<'_> {
    fn byte(&mut self, b: u8)
        requires { HasRoom (b ∷ []) self.old }
        ensures { Wrote (b ∷ []) self.old self.new }
    {
        self.out[self.at] = b;
        self.at += 1;
    }

    fn word(&mut self, word: &[u8])
        requires { HasRoom word.now self.old }
        ensures { Wrote word.now self.old self.new }
    {
        let end = self.at + word.len();
        self.out[self.at..end].copy_from_slice(word);
        self.at = end;
    }

    // A number in decimal, digit by digit: std prints one only by `write!`, or to a String, which needs the heap.
    fn number(&mut self, n: usize)
        requires { HasRoom (decimal n) self.old }
        ensures { Wrote (decimal n) self.old self.new }
    {
        if n < 10 {
            return self.byte(b'0' + n as u8);
        }
        self.number(n / 10);
        self.byte(b'0' + (n % 10) as u8);
    }

    // A space and a number in decimal.
    fn field(&mut self, n: usize)
        requires { HasRoom (32 ∷ decimal n) self.old }
        ensures { Wrote (32 ∷ decimal n) self.old self.new }
    {
        self.byte(b' ');
        self.number(n);
    }

    // A space and the letters of moves, or a dash where there are none.
    fn letters(&mut self, moves: &[u8])
        requires { HasRoom (32 ∷ letters moves.now) self.old }
        ensures { Wrote (32 ∷ letters moves.now) self.old self.new }
    {
        self.byte(b' ');
        if moves.is_empty() {
            return self.byte(b'-');
        }
        for m in moves {
            self.byte(letter_of(*m));
        }
    }

    // A word and two numbers, with which the lines of both answers begin.
    fn opening(&mut self, word: &[u8], first: usize, second: usize)
        requires { HasRoom (opening word.now first second) self.old }
        ensures { Wrote (opening word.now first second) self.old self.new }
    {
        self.word(word);
        self.field(first);
        self.field(second);
    }
}

// The length of a plan's line. In place of no letters there is a dash.
fn plan_length(visits: u32, moves: &[u8]) -> usize
    ensures { result ≡ length (plan_line visits moves.now) }
{
    8 + places(moves.len()) + places(visits as usize) + moves.len().max(1)
}

// The length of a refusal's line.
fn refusal_length(number: u32, cell: u32, visits: u32) -> usize
    ensures { result ≡ length (refused_line number cell visits) }
{
    11 + places(number as usize) + places(cell as usize) + places(visits as usize)
}

// Puts the line of a plan at the start of `out` and answers its length. Where `out` has too little room it stays, and there is none.
pub fn write_plan(visits: u32, moves: &[u8], out: &mut [u8]) -> Option<usize>
    ensures { LineAnswered (plan_line visits moves.now) out.old result out.new }
{
    if out.len() < plan_length(visits, moves) {
        return None;
    }
    let mut line = Line { out, at: 0 };
    line.opening(b"plan", moves.len(), visits as usize);
    line.letters(moves);
    line.byte(b'\n');
    Some(line.at)
}

// Puts the line of a refusal at the start of `out`, as `write_plan` does. One generic function for both would need a trait for the field
// between opening and line feed, letters there and a number here, and be longer than the two.
pub fn write_refusal(number: u32, cell: u32, visits: u32, out: &mut [u8]) -> Option<usize>
    ensures { LineAnswered (refused_line number cell visits) out.old result out.new }
{
    if out.len() < refusal_length(number, cell, visits) {
        return None;
    }
    let mut line = Line { out, at: 0 };
    line.opening(b"refused", number as usize, cell as usize);
    line.field(visits as usize);
    line.byte(b'\n');
    Some(line.at)
}
