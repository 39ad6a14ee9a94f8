// The time series of a set: K and kappa in each year, counted from the start, kappa on a grid with two signed ends.
#![tactic(auto)]

ghost use Rattle.std.specs.Prelude.{◌≡◌, ◌*◌, ◌≤◌};
ghost use Rattle.number_whole.specs.code.Sizes.{Under, Within};
ghost use Rattle.number_exponential.specs.Units.{ten_trillionths, grid_of};
ghost use Rattle.set_params.specs.Limits.{kappa_limit, last_years};
ghost use Rattle.set_params.specs.code.Within.{PeriodWithin, DynamicsWithin};
ghost use Rattle.set_series.specs.Series.{in_grid, period_in, kappa_step, kappa_in};
ghost use Rattle.set_series.specs.code.Within.{number_limit, mixed_over, MixedWithin, KappaWithin};

use number_exponential::GridUnit;
use number_whole::SignedEnds;
use set_params::Dynamics;

// The unit of a, B and beta.
pub const COEFFICIENT_UNIT: i64 = 100_000_000;

// Fine units in 10^-9, the unit of a set's numbers.
const FINE_SCALE: i64 = 10_000;

// Both as divisors, with multiples of them that lie beyond every number that they divide.
const UNIT_DIVISOR: u64 = 100_000_000;

const UNITS_AWAY: u64 = 60_000_000_000;

const SCALE_DIVISOR: u64 = 10_000;

const SCALES_AWAY: u64 = 600_000_000_000_000;

// K in year n, of K in the start year and theta.
pub fn period_index(start: i64, theta: i64, n: u64) -> i64
    requires { PeriodWithin start theta × (n ≤ last_years) }
    ensures { result ≡ period_in start theta n }
{
    start + n as i64 * theta
}

// A number of a set in a grid's units.
pub fn in_grid(grid: GridUnit, z: i64) -> i64
    requires { Under z number_limit }
    ensures { result ≡ in_grid (grid_of grid) z }
{
    match grid {
        GridUnit::Coarse => z,
        GridUnit::Fine => FINE_SCALE * z,
    }
}

// p and c·z over 10^8 in fine units: each is cut into a multiple of the divisor, which is divided exactly, and a rest.
fn fine_over(p: i64, c: i64, z: i64, upper: bool) -> i64
    requires { MixedWithin ten_trillionths p c z }
    ensures { result ≡ mixed_over ten_trillionths p c z upper }
{
    let high = number_whole::floor_div(p, SCALE_DIVISOR, SCALES_AWAY);
    let low = p - high * FINE_SCALE;
    let wide = number_whole::floor_div(z, UNIT_DIVISOR, UNITS_AWAY);
    let rest = z - wide * COEFFICIENT_UNIT;
    let left = low * FINE_SCALE + c * rest;
    high + c * wide + number_whole::outward_div(left, UNIT_DIVISOR, UNITS_AWAY, upper)
}

// p and c·z over 10^8, p a set's number and z in a grid's units: rounded up for an upper end and down for a lower one.
pub fn mixed_over(grid: GridUnit, p: i64, c: i64, z: i64, upper: bool) -> i64
    requires { MixedWithin (grid_of grid) p c z }
    ensures { result ≡ mixed_over (grid_of grid) p c z upper }
{
    match grid {
        GridUnit::Coarse => number_whole::outward_div(p + c * z, UNIT_DIVISOR, UNITS_AWAY, upper),
        GridUnit::Fine => fine_over(p, c, z, upper),
    }
}

// Kappa a year on: multiplied by a and divided by the rate's unit, outward, and then c added.
pub fn kappa_step(grid: GridUnit, d: Dynamics, e: SignedEnds) -> SignedEnds
    requires { DynamicsWithin d × Within ((grid_of grid).scale * kappa_limit) e }
    ensures { result ≡ kappa_step (grid_of grid) d e }
{
    let added = in_grid(grid, d.c);
    let a = d.a;
    let low = number_whole::end_by(a, e.lower, e.upper);
    let high = number_whole::end_by(a, e.upper, e.lower);
    let lower = added + mixed_over(grid, 0, a, low, false);
    let upper = added + mixed_over(grid, 0, a, high, true);
    SignedEnds { lower, upper }
}

// Kappa in year n, of kappa in the start year.
pub fn kappa_at(grid: GridUnit, d: Dynamics, start: i64, n: u64) -> SignedEnds
    requires { DynamicsWithin d × Under start number_limit × KappaWithin (grid_of grid) d start n }
    ensures { result ≡ kappa_in (grid_of grid) d start n }
{
    let first = in_grid(grid, start);
    let mut e = SignedEnds {
        lower: first,
        upper: first,
    };
    for _year in 0..n {
        e = kappa_step(grid, d, e);
    }
    e
}
