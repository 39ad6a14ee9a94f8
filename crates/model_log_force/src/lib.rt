// The log force of a cell on a grid, with two signed ends; and a year of the table: K and kappa, the year after, and the log
// force at an age of it.
#![tactic(auto)]

ghost use Rattle.std.specs.Prelude.{◌≡◌};
ghost use Rattle.number_exponential.specs.Units.{grid_of};
ghost use Rattle.model_log_force.specs.LogForce.{cell_force, in_range};
ghost use Rattle.model_log_force.specs.code.Within.{CellLimits};
ghost use Rattle.model_log_force.specs.code.Year.{SeriesOf, YearFrom, YearWithin, NextOf};

use number_exponential::GridUnit;
use number_whole::SignedEnds;
use set_params::{Age, Dynamics};

// A needed cell's least lower end and greatest upper end, in units of 10^-9.
pub const LOWEST_FORCE: i64 = -30_000_000_000;

pub const HIGHEST_FORCE: i64 = -700_000_000;

// The year start + number, with K in units of 10^-9 and kappa in a grid's.
#[derive(Clone, Copy)]
pub struct Year {
    pub number: u64,
    pub period: i64,
    pub kappas: SignedEnds,
}

// The log force at an age, of K and kappa in a year.
pub fn log_force(grid: GridUnit, age: Age, period: i64, kappas: SignedEnds) -> SignedEnds
    requires { CellLimits (grid_of grid) age period kappas }
    ensures { result ≡ cell_force (grid_of grid) age period kappas }
{
    let fixed = set_series::in_grid(grid, age.level + age.alpha);
    let trend = age.slope * period;
    let beta = age.beta;
    let low = number_whole::end_by(beta, kappas.lower, kappas.upper);
    let high = number_whole::end_by(beta, kappas.upper, kappas.lower);
    let lower = fixed + set_series::mixed_over(grid, trend, beta, low, false);
    let upper = fixed + set_series::mixed_over(grid, trend, beta, high, true);
    SignedEnds { lower, upper }
}

// The range of a needed cell.
pub fn in_range(grid: GridUnit, m: SignedEnds) -> bool
    ensures { result ≡ in_range (grid_of grid) m }
{
    let lowest = set_series::in_grid(grid, LOWEST_FORCE);
    let highest = set_series::in_grid(grid, HIGHEST_FORCE);
    lowest <= m.lower && m.upper <= highest
}

// Year n of a set's series, of K and kappa in the start year: the set itself would be copied for the call.
pub fn year_at(grid: GridUnit, d: Dynamics, start: i64, kappa: i64, n: u64) -> Year
    requires { SeriesOf (grid_of grid) d start kappa n }
    ensures { YearFrom (grid_of grid) d start kappa n result }
{
    let period = set_series::period_index(start, d.theta, n);
    let kappas = set_series::kappa_at(grid, d, kappa, n);
    Year {
        number: n,
        period,
        kappas,
    }
}

// The year after.
pub fn next_year(grid: GridUnit, d: Dynamics, y: Year) -> Year
    requires { YearWithin (grid_of grid) d y }
    ensures { NextOf (grid_of grid) d y result }
{
    let kappas = y.kappas;
    let next = set_series::kappa_step(grid, d, kappas);
    Year {
        number: y.number + 1,
        period: y.period + d.theta,
        kappas: next,
    }
}

// The log force at an age of a year.
pub fn log_force_at(grid: GridUnit, age: Age, y: Year) -> SignedEnds
    requires { CellLimits (grid_of grid) age y.period y.kappas }
    ensures { result ≡ cell_force (grid_of grid) age y.period y.kappas }
{
    let kappas = y.kappas;
    log_force(grid, age, y.period, kappas)
}
