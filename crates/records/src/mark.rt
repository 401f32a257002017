// The mark of a record: 32-bit FNV-1a, with the program's own wrapping multiply.
ghost use Rattle.std.specs.Prelude.{◌≡◌};
ghost use Rattle.records.specs.Mark.{times, mark_step, mark};

const START: u32 = 2166136261;

const FACTOR: u32 = 16777619;

// A product kept to 32 bits. The paper asks for the program's own multiply, so it is not the library's `wrapping_mul`.
fn times(x: u32, y: u32) -> u32
    ensures { result ≡ times x y }
{
    (u64::from(x) * u64::from(y) % 4294967296) as u32
}

// The mark with one byte more.
fn mark_step(m: u32, b: u8) -> u32
    ensures { result ≡ mark_step m b }
{
    times(m ^ u32::from(b), FACTOR)
}

// The mark of bytes.
pub fn mark(bytes: &[u8]) -> u32
    ensures { result ≡ mark bytes.now }
{
    bytes.iter().fold(START, |m, &b| mark_step(m, b))
}
