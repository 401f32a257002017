// The decisions over a row of four stored values, each as its definition in specs/Row.antt says.
ghost use Rattle.std.specs.Prelude.{◌≡◌, not, ◌≤◌, ◌<◌, length, slice_index};
ghost use Rattle.search.specs.Row.{best, may_go_on, first_stored, above_ceiling, better};
ghost use Rattle.search.specs.Run.{Picks};

use crate::{Choice, Pick};

// 65,535 stands for infinity, and no Option: the lent table holds numbers, and specs/Row.antt has `infinity` as one of them.
pub const INFINITY: u16 = 65535;

// The move to visit: the least value, and the lower move number at equal values. The row is lent: an array by value costs the search a
// fifth (28.6 million visits a second against 36.2).
pub fn best_of(row: &[u16]) -> Choice
    requires { length row.now ≡ 4 }
    ensures { result ≡ best row.now }
{
    let ab = better(choice(row, 0), choice(row, 1));
    let abc = better(ab, choice(row, 2));
    better(abc, choice(row, 3))
}

// A move with its stored value.
fn choice(row: &[u16], step: usize) -> Choice
    requires { step < length row.now }
    ensures { result ≡ record { step = step; value = slice_index row.now step } }
{
    let value = row[step];
    Choice { step, value }
}

// The later choice only where its value is less. A derived order, with `min`, would compare the moves too, which are in order here, and
// leave no test for the edit ties_by_latest to turn round.
fn better(x: Choice, y: Choice) -> Choice
    ensures { result ≡ better x y }
{
    if y.value < x.value { y } else { x }
}

// The first move whose value is the least, and the least of the other three.
pub fn picked(row: &[u16], least: u16) -> Pick
    requires row_length { length row.now ≡ 4 }
    requires least_value { least ≡ (best row.now).value }
    ensures { Picks row.now result }
{
    if row[0] == least {
        let second = row[1].min(row[2].min(row[3]));
        return Pick { step: 0, second };
    }
    if row[1] == least {
        let second = row[0].min(row[2].min(row[3]));
        return Pick { step: 1, second };
    }
    let ab = row[0].min(row[1]);
    if row[2] == least {
        let second = ab.min(row[3]);
        return Pick { step: 2, second };
    }
    let second = ab.min(row[2]);
    Pick { step: 3, second }
}

// The least value is above the bound, or infinity: the work ends.
pub fn stops_at(bound: u16, least: u16) -> bool
    ensures { result ≡ not (may_go_on bound least) }
{
    bound < least || least == INFINITY
}

// A successor's first stored value.
pub fn first_stored(f: u16, stored: u16, own: u16) -> u16
    ensures { result ≡ first_stored f stored own }
{
    if f < stored { stored.max(own) } else { own }
}

// The g moves made and the distance h are together above the ceiling: h is more than is left of it.
pub fn above_ceiling(ceiling: usize, g: usize, h: usize) -> bool
    requires { g ≤ ceiling }
    ensures { result ≡ above_ceiling ceiling g h }
{
    ceiling - g < h
}
