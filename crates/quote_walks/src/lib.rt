// The walk along a path at ages to 90 on a grid: p's ends at each of its cells, into an array by value.
#![tactic(auto)]

ghost use Rattle.std.specs.Prelude.{◌≡◌, ◌&&◌, ◌-◌, min, T, ltb};
ghost use Rattle.number_exponential.specs.Units.{grid_of};
ghost use Rattle.model_closure.specs.Weights.{first_closed};
ghost use Rattle.model_log_force.specs.code.Year.{YearWithin};
ghost use Rattle.quote_walks.specs.code.Code.{PathWithin, Advanced, WalkOf};

use model_closure::FIRST_CLOSED;
use model_log_force::Year;
use number_exponential::{Ends, GridUnit};
use number_folds::MOST_FACTORS;
use quote_paths::Path;
use set_params::{Dynamics, Params};

// The factors of a path's first `done` cells, and the year of the next.
#[derive(Clone, Copy)]
pub struct Walk {
    pub done: usize,
    pub year: Year,
    pub ends: [Ends; MOST_FACTORS],
}

// How many of `count` ages from an age on are to 90.
fn young_count(age: usize, count: usize) -> usize
    ensures { result ≡ min (first_closed - age) count }
{
    FIRST_CLOSED.saturating_sub(age).min(count)
}

// Whether the next cell lies in the next year: along the cohort, where there is one.
pub fn goes_on(cohort: bool, s: usize, count: usize) -> bool
    ensures { result ≡ (cohort && ltb s count) }
{
    cohort && s < count
}

// The year after, or the same.
pub fn year_after(grid: GridUnit, d: Dynamics, y: Year, on: bool) -> Year
    requires { T on → YearWithin (grid_of grid) d y }
    ensures { Advanced (grid_of grid) d y on result }
{
    if on {
        return model_log_force::next_year(grid, d, y);
    }
    y
}

// The factors at ages to 90, or None where a cell of theirs is out of range.
pub fn young_factors(grid: GridUnit, p: Params, path: Path) -> Option<Walk>
    requires { PathWithin p path }
    ensures { WalkOf (grid_of grid) p path result }
{
    let cohort = path.cohort;
    let age = path.age;
    let count = path.count;
    let young = young_count(age, count);
    let d = Dynamics {
        a: p.a,
        theta: p.theta,
        c: p.c,
    };
    let mut year = model_log_force::year_at(grid, d, p.period, p.kappa, path.year);
    let mut ends = [Ends { lower: 0, upper: 0 }; MOST_FACTORS];
    for done in 0..young {
        let four = set_params::age_of_runs(&p.level, &p.slope, &p.alpha, &p.beta, age + done);
        ends[done] = model_cells::young_cell(grid, four, year)?;
        year = year_after(grid, d, year, goes_on(cohort, done + 1, count));
    }
    Some(Walk {
        done: young,
        year,
        ends,
    })
}
