// What a log force in range gives on a grid, each with two ends: the force and p at an age to 90, and H, to
// which the closure is fitted; and q of p.
#![tactic(auto)]

ghost use Rattle.std.specs.Prelude.{◌≡◌, ◌≤◌};
ghost use Rattle.number_exponential.specs.Units.{grid_of};
ghost use Rattle.number_exponential.specs.Exponential.{exp_between};
ghost use Rattle.model_log_force.specs.code.Within.{log_force_width, Negated};
ghost use Rattle.model_logarithm.specs.Logarithm.{inverse_logistic};
ghost use Rattle.model_force.specs.Force.{negated, death_of};

use number_exponential::{Ends, GridUnit, unit_by};
use number_whole::SignedEnds;

// The force at an age to 90, e^m.
pub fn force_to_90(grid: GridUnit, m: SignedEnds) -> Ends
    requires { Negated (grid_of grid) m log_force_width }
    ensures { result ≡ exp_between (grid_of grid) (negated m) }
{
    number_exp_ends::exp_between(
        grid,
        Ends {
            lower: (-m.upper) as u64,
            upper: (-m.lower) as u64,
        },
    )
}

// p at an age to 90, e^−force.
pub fn survival_to_90(grid: GridUnit, m: SignedEnds) -> Ends
    requires { Negated (grid_of grid) m log_force_width }
    ensures { result ≡ exp_between (grid_of grid) (exp_between (grid_of grid) (negated m)) }
{
    number_exp_ends::exp_between(grid, force_to_90(grid, m))
}

// q = 1 − p, ends exchanged.
pub fn death_of(grid: GridUnit, p: Ends) -> Ends
    requires { (p.lower ≤ (grid_of grid).unit) × (p.upper ≤ (grid_of grid).unit) }
    ensures { result ≡ death_of (grid_of grid) p }
{
    let one = unit_by(grid);
    Ends {
        lower: one - p.upper,
        upper: one - p.lower,
    }
}

// H = m − ln(1 − e^m).
pub fn inverse_logistic(grid: GridUnit, m: SignedEnds) -> SignedEnds
    requires { Negated (grid_of grid) m log_force_width }
    ensures { result ≡ inverse_logistic (grid_of grid) m (exp_between (grid_of grid) (negated m)) }
{
    let u = force_to_90(grid, m);
    let more = model_logarithm::log_between(grid, u);
    SignedEnds {
        lower: m.lower + more.lower as i64,
        upper: m.upper + more.upper as i64,
    }
}
