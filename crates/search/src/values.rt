// The values by numbers alone.
ghost use Rattle.std.specs.Prelude.{◌≡◌, ◌≤◌};
ghost use Rattle.search.specs.Row.{first_stored};
ghost use Rattle.search.specs.Run.{value_at, cut_at};
ghost use Rattle.search.specs.Ground.{job_of};

use crate::Ground;
use crate::row::{INFINITY, above_ceiling, first_stored};

impl Ground {
    // f = q × g + p × h.
    pub fn value(&self, h: usize, g: usize) -> u16
        requires { (h ≤ 91) × (g ≤ self.now.ceiling) }
        ensures { result ≡ value_at (job_of self.now) g h }
    {
        (self.weight.q * g + self.weight.p * h) as u16
    }

    // The first stored value of a successor at depth g, whose distance is h: infinity where g + h is above the ceiling.
    pub fn first_value(&self, f: u16, stored: u16, h: usize, g: usize) -> u16
        requires { (h ≤ 91) × (g ≤ self.now.ceiling) }
        ensures { result ≡ cut_at (job_of self.now) g h (first_stored f stored (value_at (job_of self.now) g h)) }
    {
        if above_ceiling(self.ceiling, g, h) {
            return INFINITY;
        }
        first_stored(f, stored, self.value(h, g))
    }
}
