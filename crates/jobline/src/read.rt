// Reads the text of a job from the left: each function reads the front of a text, and gives what it read and the text behind it.
// A number is all digits that stand at the front; a field is one space and then a number. The cells go to the caller only when all is read.
ghost use Rattle.std.specs.Prelude.{◌≡◌, ◌≤◌, length, IfSome, option_copied};
ghost use Rattle.jobline.specs.Numeral.{Digits};
ghost use Rattle.jobline.specs.Scan.{behind, run, value_if_any, ends, read_view};
ghost use Rattle.jobline.specs.Scan.{read_number, read_field, read_ceiling, read_head, read_cells, read_job};
ghost use Rattle.jobline.specs.Held.{Counted, Answers};

use board::numbered::Numbered;

// The six numbers of a job before its cells.
#[derive(Clone, Copy, Debug, PartialEq, Eq)]
pub struct Numbers {
    pub width: u32,
    pub height: u32,
    pub ceiling: i32,
    pub budget: u32,
    pub p: u32,
    pub q: u32,
}

// 12: the text is not of the grammar.
#[derive(Clone, Copy, Debug, PartialEq, Eq)]
pub struct Malformed;

impl Numbered for Malformed {
    ghost number_of = { λ why. 12 };

    ghost place_of = { λ why. 0 };

    fn number(self) -> u32 {
        12
    }

    fn place(self) -> usize {
        0
    }
}

// Nine nines: the largest number of nine digits.
const NINES: u32 = 999_999_999;

// What stands behind a byte at the front.
fn behind(text: &[u8], byte: u8) -> Option<&[u8]>
    ensures { option_copied result ≡ behind byte text.now }
{
    match text {
        [first, rest @ ..] if *first == byte => Some(rest),
        _ => None,
    }
}

// How many digits stand at the front.
fn digit_count(text: &[u8]) -> usize
    ensures value { result ≡ run text.now }
    ensures within { result ≤ length text.now }
{
    text.iter().take_while(|b| b.is_ascii_digit()).count()
}

// What at most nine digits are worth, if there are any.
fn value_of(digits: &[u8]) -> Option<u32>
    requires digits { Digits digits.now }
    requires few { length digits.now ≤ 9 }
    ensures { result ≡ value_if_any digits.now }
{
    str::from_utf8(digits).ok()?.parse().ok()
}

// A number of 1 to 9 digits and at most `most`.
#[tactic(auto, unfolding(crate::specs::Scan::read_number))]
fn read_number(text: &[u8], most: u32) -> Option<(u32, &[u8])>
    ensures value { read_view result ≡ read_number most text.now }
    ensures small { IfSome result (λ read. read.0 ≤ most) }
{
    let (digits, rest) = text.split_at(digit_count(text));
    if 9 < digits.len() {
        return None;
    }
    let value = value_of(digits)?;
    if most < value {
        return None;
    }
    Some((value, rest))
}

// A space, and a number of at most `most`.
#[tactic(auto, unfolding(crate::specs::Scan::read_field))]
fn read_field(text: &[u8], most: u32) -> Option<(u32, &[u8])>
    ensures value { read_view result ≡ read_field most text.now }
    ensures small { IfSome result (λ read. read.0 ≤ most) }
{
    read_number(behind(text, b' ')?, most)
}

// A space, and a number of nine digits at most, with or without a minus.
#[tactic(auto, unfolding(crate::specs::Scan::read_ceiling))]
fn read_ceiling(text: &[u8]) -> Option<(i32, &[u8])>
    ensures { read_view result ≡ read_ceiling text.now }
{
    let text = behind(text, b' ')?;
    match behind(text, b'-') {
        Some(text) => {
            let (size, rest) = read_number(text, NINES)?;
            Some((-(size as i32), rest))
        }
        None => {
            let (size, rest) = read_number(text, NINES)?;
            Some((size as i32, rest))
        }
    }
}

// The six numbers before the cells.
#[tactic(auto, unfolding(crate::specs::Scan::read_head))]
fn read_head(text: &[u8]) -> Option<(Numbers, &[u8])>
    ensures { read_view result ≡ read_head text.now }
{
    let (width, rest) = read_number(text, 255)?;
    let (height, rest) = read_field(rest, 255)?;
    let (ceiling, rest) = read_ceiling(rest)?;
    let (budget, rest) = read_field(rest, NINES)?;
    let (p, rest) = read_field(rest, 255)?;
    let (q, rest) = read_field(rest, 255)?;
    let numbers = Numbers {
        width,
        height,
        ceiling,
        budget,
        p,
        q,
    };
    Some((numbers, rest))
}

// The text is a line feed and no more.
fn ends(text: &[u8]) -> bool
    ensures { result ≡ ends text.now }
{
    matches!(text, [b'\n'])
}

// Puts the cells before the line feed that ends the text into the front of `cells`, and says how many they are.
// They go by index: over `iter_mut().enumerate()` it isn't proved what the returns within the loop leave in `cells`.
fn read_cells(text: &[u8], cells: &mut [u8; 32]) -> Option<usize>
    ensures { Counted (read_cells 32 text.now) cells.old result cells.new }
{
    let mut rest = text;
    for count in 0..32 {
        if ends(rest) {
            return Some(count);
        }
        let (cell, next) = read_field(rest, 255)?;
        cells[count] = cell as u8;
        rest = next;
    }
    ends(rest).then_some(32)
}

// Reads a job: its numbers and how many cells in the answer, the cells in front of `cells`. A text that is not of the grammar leaves
// `cells` as found. The answer has a count and no slice of the cells, since `Answers` says what all 32 are afterwards.
#[tactic(auto, unfolding(crate::specs::Scan::read_job))]
pub fn read_job(text: &[u8], cells: &mut [u8; 32]) -> Result<(Numbers, usize), Malformed>
    ensures { Answers (read_job text.now) cells.old result cells.new }
{
    if 256 < text.len() {
        return Err(Malformed);
    }
    let (numbers, rest) = read_head(text).ok_or(Malformed)?;
    let mut kept = *cells;
    let count = read_cells(rest, &mut kept).ok_or(Malformed)?;
    *cells = kept;
    Ok((numbers, count))
}
