// The logistic 1/(1 + e^−G) on a grid, from the ends of G.
#![tactic(auto)]

ghost use Rattle.std.specs.Prelude.{◌≡◌, cond, ◌*◌, ◌/◌, ◌≤◌};
ghost use Rattle.number_whole.specs.Division.{ceil_div_ℕ};
ghost use Rattle.number_whole.specs.code.Sizes.{Under, Within};
ghost use Rattle.number_exponential.specs.Units.{grid_of};
ghost use Rattle.number_exponential.specs.Exponential.{exp_lower, exp_upper};
ghost use Rattle.model_logistic.specs.Logistic.{logistic_lower, logistic_upper, logistic};
ghost use Rattle.model_logistic.specs.code.Code.{closed_limit};

use number_exponential::{Ends, GridUnit, unit_by};
use number_products::quotient_by;
use number_whole::SignedEnds;

// An end of e^−z.
fn exp_end(grid: GridUnit, z: u64, upper: bool) -> u64
    ensures { result ≡ cond upper (exp_upper (grid_of grid) z) (exp_lower (grid_of grid) z) }
{
    if upper {
        return number_exp_ends::exp_upper(grid, z);
    }
    number_exp_ends::exp_lower(grid, z)
}

// n / d in units, d one or two, rounded up for an upper end and down for a lower one.
fn quotient(grid: GridUnit, n: u64, d: u64, upper: bool) -> u64
    requires { (n ≤ (grid_of grid).unit) × ((grid_of grid).unit ≤ d) × (d ≤ 2 * (grid_of grid).unit) }
    ensures { result ≡ cond upper (ceil_div_ℕ (n * (grid_of grid).unit) d) (n * (grid_of grid).unit / d) }
{
    if upper {
        return quotient_by(grid, n, d, d - 1);
    }
    quotient_by(grid, n, d, 0)
}

// An end of the force from that of G: 1/(1 + e^−G), which takes the other end of the exponential, and below 0 E/(1 + E)
// with E = e^G, which takes the same one.
fn logistic_end(grid: GridUnit, g: i64, upper: bool) -> u64
    requires { Under g closed_limit }
    ensures { result ≡ cond upper (logistic_upper (grid_of grid) g) (logistic_lower (grid_of grid) g) }
{
    let one = unit_by(grid);
    if g < 0 {
        let e = exp_end(grid, -g as u64, upper);
        return quotient(grid, e, one + e, upper);
    }
    quotient(grid, one, one + exp_end(grid, g as u64, !upper), upper)
}

// The force's ends from those of G.
pub fn logistic(grid: GridUnit, g: SignedEnds) -> Ends
    requires { Within closed_limit g }
    ensures { result ≡ logistic (grid_of grid) g }
{
    Ends {
        lower: logistic_end(grid, g.lower, false),
        upper: logistic_end(grid, g.upper, true),
    }
}
