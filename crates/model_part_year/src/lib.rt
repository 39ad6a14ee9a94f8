// The cell of a part of a year on a grid: the chance to live through some of its days, with two ends, from the force
// at any age.
#![tactic(auto)]

ghost use Rattle.std.specs.Prelude.{◌≡◌, ◌*◌, ◌≤◌, T};
ghost use Rattle.number_exponential.specs.Units.{grid_of};
ghost use Rattle.number_exponential.specs.Exponential.{exp_between};
ghost use Rattle.number_exponential.specs.Outward.{outward_over};
ghost use Rattle.set_limits.specs.InLimits.{in_limits};
ghost use Rattle.set_params.specs.Limits.{last_years};
ghost use Rattle.model_closure.specs.Weights.{last_closed};
ghost use Rattle.model_part_year.specs.code.Code.{part_cell, DaysWithin};
ghost use Rattle.model_cells.specs.code.Code.{force_cell};

use model_closure::FIRST_CLOSED;
use number_exponential::{Ends, GridUnit};
use number_whole::ceil_div_u;
use set_params::{Dynamics, Params};

// The force at an age of the table in a year.
fn force_at(grid: GridUnit, p: Params, x: usize, n: u64) -> Option<Ends>
    requires { T (in_limits p) × (x ≤ last_closed) × (n ≤ last_years) }
    ensures { result ≡ force_cell (grid_of grid) p x n }
{
    let d = Dynamics {
        a: p.a,
        theta: p.theta,
        c: p.c,
    };
    let y = model_log_force::year_at(grid, d, p.period, p.kappa, n);
    if x < FIRST_CLOSED {
        let four = set_params::age_of_runs(&p.level, &p.slope, &p.alpha, &p.beta, x);
        return model_cells::young_force(grid, four, y);
    }
    let table = model_closure::table();
    let row = table[x - FIRST_CLOSED];
    let fitted = model_cells::fitted_in(grid, &p.level, &p.slope, &p.alpha, &p.beta, y);
    model_cells::old_force(grid, row, fitted)
}

// The exponential of a force over some days of a year, the exponent rounded outward.
fn exp_over(grid: GridUnit, f: Ends, days: u64, whole: u64) -> Ends
    requires { (f.lower ≤ (grid_of grid).unit) × (f.upper ≤ (grid_of grid).unit) × DaysWithin days whole }
    ensures { result ≡ exp_between (grid_of grid) (outward_over (f.lower * days) (f.upper * days) whole) }
{
    number_exp_ends::exp_between(
        grid,
        Ends {
            lower: f.lower * days / whole,
            upper: ceil_div_u(f.upper * days, whole),
        },
    )
}

// The cell over some days of its year.
pub fn part_cell(grid: GridUnit, p: Params, x: usize, n: u64, days: u64, whole: u64) -> Option<Ends>
    requires { T (in_limits p) × (x ≤ last_closed) × (n ≤ last_years) × DaysWithin days whole }
    ensures { result ≡ part_cell (grid_of grid) p x n days whole }
{
    let f = force_at(grid, p, x, n)?;
    Some(exp_over(grid, f, days, whole))
}
