// The exponential of −z on either grid, for any z in units: one function for the lower end, one for the upper end.
// Each takes a sum of the exponential's terms for f up to 1, from term 1 on, which is f, and holds each upper end less one: from
// 0 and 0 on nothing is left to add. What stands below `exp_lower` and `exp_upper` takes a unit that is a constant in each call,
// so that the compiler makes a loop for each grid.
#![tactic(auto)]

ghost use Rattle.std.specs.Prelude.{◌≡◌, suc, ◌+◌, ◌-◌, ◌*◌, ◌/◌, ◌≤◌, ◌<◌};
ghost use Rattle.number_exponential.specs.Units.{grid_of};
ghost use Rattle.number_exponential.specs.Exponential.{step, cutoff_units, exp_lower, exp_upper, exp_between, next_lower, next_upper, sum_lower, sum_upper};
ghost use Rattle.number_exp_ends.specs.code.Code.{TermRange, PairCount};

use number_exp_constants::whole_part;
use number_exponential::{CUTOFF, Ends, GridUnit, STEP, UNIT, unit_by};
use number_products::product_by;

const FINE_STEP: u64 = 5_000_000_000_000;

const FINE_CUTOFF: u64 = 300_000_000_000_000;

// Units in a step of the constants.
#[tactic(auto, unfolding(number_exponential::specs::Units::grid_of))]
fn step_of(grid: GridUnit) -> u64
    ensures { result ≡ step (grid_of grid) }
{
    match grid {
        GridUnit::Coarse => STEP,
        GridUnit::Fine => FINE_STEP,
    }
}

// z from which the exponential is [0, 1].
#[tactic(auto, unfolding(number_exponential::specs::Units::grid_of))]
fn cutoff_of(grid: GridUnit) -> u64
    ensures { result ≡ cutoff_units (grid_of grid) }
{
    match grid {
        GridUnit::Coarse => CUTOFF,
        GridUnit::Fine => FINE_CUTOFF,
    }
}

// Pairs of terms in a sum: to term 13 and 12, or to term 17 and 16.
#[tactic(auto, unfolding(number_exponential::specs::Units::grid_of, number_taylor::specs::Alternating::double))]
fn pairs_of(grid: GridUnit) -> u64
    ensures { PairCount (grid_of grid) result }
{
    match grid {
        GridUnit::Coarse => 6,
        GridUnit::Fine => 8,
    }
}

// (t·f + c)/(k·unit): the whole part of a quotient by k units is that of the quotient by one, divided by k.
fn next_term(grid: GridUnit, t: u64, f: u64, c: u64, k: u64) -> u64
    requires { TermRange (grid_of grid) t f c k }
    ensures { result ≡ (t * f + c) / (k * (grid_of grid).unit) }
{
    match grid {
        GridUnit::Coarse => (t * f + c) / (k * UNIT),
        GridUnit::Fine => product_by(GridUnit::Fine, t, f, c) / k,
    }
}

// The next term, t·f/(k·unit), rounded down.
#[tactic(auto, unfolding(number_exponential::specs::Exponential::next_lower))]
fn next_lower(grid: GridUnit, t: u64, f: u64, k: u64) -> u64
    requires { TermRange (grid_of grid) t f 0 k }
    ensures { result ≡ next_lower (grid_of grid) t f k }
{
    next_term(grid, t, f, 0, k)
}

// One less than the next term rounded up, from one less than the last: ((t + 1)·f − 1)/(k·unit).
fn next_less(grid: GridUnit, t: u64, f: u64, k: u64) -> u64
    requires { TermRange (grid_of grid) t f 0 k × (0 < f) }
    ensures { suc result ≡ next_upper (grid_of grid) (suc t) f k }
{
    next_term(grid, t, f, f - 1, k)
}

// The even terms' lower ends less the odd terms' upper ends.
fn sum_lower(grid: GridUnit, f: u64) -> u64
    requires { f ≤ (grid_of grid).unit }
    ensures { result ≡ sum_lower (grid_of grid) f }
{
    let one = unit_by(grid);
    let pairs = pairs_of(grid);
    if f == 0 {
        return one;
    }
    let mut low = f;
    let mut less = f - 1;
    let mut evens = one;
    let mut odds = f;
    for i in 0..pairs {
        let k = 2 * i + 2;
        let even = next_lower(grid, low, f, k);
        low = next_lower(grid, even, f, k + 1);
        less = next_less(grid, next_less(grid, less, f, k), f, k + 1);
        evens += even;
        odds += less;
        if less + low == 0 {
            return evens - (odds + pairs);
        }
    }
    evens - (odds + pairs)
}

// The even terms' upper ends less the odd terms' lower ends, capped at 1.
fn sum_upper(grid: GridUnit, f: u64) -> u64
    requires { f ≤ (grid_of grid).unit }
    ensures { result ≡ sum_upper (grid_of grid) f }
{
    let one = unit_by(grid);
    let pairs = pairs_of(grid);
    let last = pairs - 1;
    if f == 0 {
        return one;
    }
    let mut low = f;
    let mut less = f - 1;
    let mut evens = one;
    let mut odds = f;
    for i in 0..last {
        let k = 2 * i + 2;
        let even = next_less(grid, less, f, k);
        low = next_lower(grid, next_lower(grid, low, f, k), f, k + 1);
        less = next_less(grid, even, f, k + 1);
        evens += even;
        odds += low;
        if less + low == 0 {
            return (evens + pairs - odds).min(one);
        }
    }
    evens += next_less(grid, less, f, 2 * pairs);
    (evens + pairs - odds).min(one)
}

// The lower end of the exponential of −z. Below the first step the constant is 1, and the sum is the answer.
fn lower_on(grid: GridUnit, z: u64) -> u64
    ensures { result ≡ exp_lower (grid_of grid) z }
{
    let step = step_of(grid);
    if z < cutoff_of(grid) {
        let sum = sum_lower(grid, z % step);
        let n = z / step;
        if n == 0 {
            return sum;
        }
        return product_by(grid, sum, whole_part(grid, n), 0);
    }
    0
}

// The upper end of the exponential of −z.
fn upper_on(grid: GridUnit, z: u64) -> u64
    ensures { result ≡ exp_upper (grid_of grid) z }
{
    let step = step_of(grid);
    if z < cutoff_of(grid) {
        let sum = sum_upper(grid, z % step);
        let n = z / step;
        if n == 0 {
            return sum;
        }
        return product_by(grid, sum, whole_part(grid, n) + 1, unit_by(grid) - 1);
    }
    1
}

pub fn exp_lower(grid: GridUnit, z: u64) -> u64
    ensures { result ≡ exp_lower (grid_of grid) z }
{
    match grid {
        GridUnit::Coarse => lower_on(GridUnit::Coarse, z),
        GridUnit::Fine => lower_on(GridUnit::Fine, z),
    }
}

pub fn exp_upper(grid: GridUnit, z: u64) -> u64
    ensures { result ≡ exp_upper (grid_of grid) z }
{
    match grid {
        GridUnit::Coarse => upper_on(GridUnit::Coarse, z),
        GridUnit::Fine => upper_on(GridUnit::Fine, z),
    }
}

// The ends of the exponential of −z for a z with two ends: the larger z gives the lower end.
#[tactic(auto, unfolding(number_exponential::specs::Exponential::exp_between))]
pub fn exp_between(grid: GridUnit, z: Ends) -> Ends
    ensures { result ≡ exp_between (grid_of grid) z }
{
    Ends {
        lower: exp_lower(grid, z.upper),
        upper: exp_upper(grid, z.lower),
    }
}
