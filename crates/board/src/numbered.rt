// The paper's numbers: what a refusal says of itself, and so what any answer says that may be one.
ghost use Rattle.std.specs.Prelude.{◌≡◌, ℕ};
ghost use Rattle.board.specs.Numbered.{of_refused};

// A refusal has the paper's number, and the cell or the place that it names: 0 where it names none.
pub trait Numbered {
    ghost number_of: { Self → ℕ };

    ghost place_of: { Self → ℕ };

    fn number(self) -> u32
        ensures { result ≡ number_of self };

    fn place(self) -> usize
        ensures { result ≡ place_of self };
}

// An answer has its refusal's, and 0 where nothing is refused.
impl<T: Drop, R: Numbered> Numbered for Result<T, R> {
    ghost number_of = { of_refused R.number_of };

    ghost place_of = { of_refused R.place_of };

    fn number(self) -> u32 {
        match self {
            Ok(_) => 0,
            Err(why) => why.number(),
        }
    }

    fn place(self) -> usize {
        match self {
            Ok(_) => 0,
            Err(why) => why.place(),
        }
    }
}
