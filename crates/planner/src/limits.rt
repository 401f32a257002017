// Tests 5 to 7 and 15: a ceiling, a budget and a weight as they were given, any numbers. Every caller's tests 5 to 7 and 15 are these.
ghost use Rattle.std.specs.Prelude.{◌<◌, ◌≡◌, false};
ghost use Rattle.planner.specs.Limits.{bad_ceiling, ceiling_of, bad_budget, bad_weight, limit_number, divides_both, shares_divisor};
ghost use Rattle.planner.specs.Limits.{measured};

use crate::{Limit, Terms};
use board::numbered::Numbered;
use search::Weight;

// What tests 5 to 7 and 15 say, in their order.
pub fn measured(ceiling: i32, budget: u32, p: u32, q: u32) -> Result<Terms, Limit>
    ensures { result ≡ measured ceiling budget p q }
{
    if bad_ceiling(ceiling) {
        return Err(Limit::BadCeiling);
    }
    if bad_budget(budget) {
        return Err(Limit::BadBudget);
    }
    if bad_weight(p, q) {
        return Err(Limit::BadWeight);
    }
    if shares_divisor(p, q) {
        return Err(Limit::NotLowest);
    }
    let weight = Weight {
        p: p as usize,
        q: q as usize,
    };
    Ok(Terms {
        ceiling: ceiling_of(ceiling),
        weight,
    })
}

impl Numbered for Limit {
    ghost number_of = { limit_number };

    ghost place_of = { λ l. 0 };

    fn number(self) -> u32 {
        match self {
            Limit::BadCeiling => 5,
            Limit::BadBudget => 6,
            Limit::BadWeight => 7,
            Limit::NotLowest => 15,
        }
    }

    // None is of a cell.
    fn place(self) -> usize {
        0
    }
}

// 5: ceiling below 0 or above 120.
fn bad_ceiling(ceiling: i32) -> bool
    ensures { result ≡ bad_ceiling ceiling }
{
    ceiling < 0 || 120 < ceiling
}

// A ceiling that passed test 5, as a number of moves.
fn ceiling_of(ceiling: i32) -> usize
    requires { bad_ceiling ceiling ≡ false }
    ensures { result ≡ ceiling_of ceiling }
{
    ceiling as usize
}

// 6: budget not 1 to 1,000,000.
fn bad_budget(budget: u32) -> bool
    ensures { result ≡ bad_budget budget }
{
    budget < 1 || 1000000 < budget
}

// 7: q is 0, or p < q, or p > 64.
fn bad_weight(p: u32, q: u32) -> bool
    ensures { result ≡ bad_weight p q }
{
    if q == 0 {
        return true;
    }
    p < q || 64 < p
}

// 15: some number above 1 divides both p and q, of a weight that passed test 7. None above q divides q.
fn shares_divisor(p: u32, q: u32) -> bool
    requires { bad_weight p q ≡ false }
    ensures { result ≡ shares_divisor p q }
{
    for d in 2..q + 1 {
        if divides_both(p, q, d) {
            return true;
        }
    }
    false
}

fn divides_both(p: u32, q: u32, d: u32) -> bool
    requires { 0 < d }
    ensures { result ≡ divides_both p q d }
{
    p % d == 0 && q % d == 0
}
