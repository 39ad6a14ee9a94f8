// The factors of a path on a grid: p's ends at each of its cells, into an array by value. The ages to 90 come
// first, then those above, whose H are worked once a year. A cell that no factor needs is not worked, and in one calendar year
// the cell of age 120 is worked once, however many factors use it.
#![tactic(auto)]

ghost use Rattle.std.specs.Prelude.{◌≡◌, ◌-◌, ◌≤◌, ◌<◌, min};
ghost use Rattle.number_exponential.specs.Units.{grid_of};
ghost use Rattle.model_closure.specs.Weights.{first_closed, last_closed};
ghost use Rattle.quote_walks.specs.code.Code.{PathWithin, Walked};
ghost use Rattle.quote_factors.specs.code.Code.{worked_cells, Begun, Repeated, FactorsOf, PartWithin, AllFactorsOf};

use model_closure::{FIRST_CLOSED, LAST_CLOSED};
use number_exponential::{Ends, GridUnit};
use number_folds::MOST_FACTORS;
use quote_paths::{Part, Path};
use quote_walks::Walk;
use set_params::{Dynamics, Params};

// How many of `count` cells from an age on are worked: along the cohort all, and in one year those to age 120.
fn worked_count(cohort: bool, age: usize, count: usize) -> usize
    requires { age ≤ last_closed }
    ensures { result ≡ worked_cells cohort age count }
{
    if cohort {
        return count;
    }
    count.min(LAST_CLOSED + 1 - age)
}

// The place of an age above 90 in the table of weights: past 120 it is that of 120.
fn closed_row(x: usize) -> usize
    requires { first_closed ≤ x }
    ensures { result ≡ min x last_closed - first_closed }
{
    x.min(LAST_CLOSED) - FIRST_CLOSED
}

// Repeats the last of the first `done` factors after them, to make `count`.
fn repeated(ends: &mut [Ends; MOST_FACTORS], done: usize, count: usize)
    requires { Begun ends.old done count }
    ensures { Repeated ends.old done count ends.new }
{
    let last = ends[done - 1];
    ends[done..count].fill(last);
}

// The factors at ages above 90, after those to 90.
fn old_factors(grid: GridUnit, p: &Params, path: Path, walk: &Walk) -> Option<[Ends; MOST_FACTORS]>
    requires { PathWithin p.now path × Walked (grid_of grid) p.now path walk.now × (walk.now.done < path.count) }
    ensures { FactorsOf (grid_of grid) p.now path result }
{
    let cohort = path.cohort;
    let age = path.age;
    let count = path.count;
    let worked = worked_count(cohort, age, count);
    let table = model_closure::table();
    let d = Dynamics {
        a: p.a,
        theta: p.theta,
        c: p.c,
    };
    let mut ends = walk.ends;
    let mut year = walk.year;
    let mut fitted = model_cells::fitted_in(grid, &p.level, &p.slope, &p.alpha, &p.beta, year);
    for done in walk.done..worked {
        let x = age + done;
        let row = table[closed_row(x)];
        ends[done] = model_cells::old_cell(grid, row, fitted)?;
        let on = quote_walks::goes_on(cohort, done + 1, count);
        year = quote_walks::year_after(grid, d, year, on);
        if on {
            fitted = model_cells::fitted_in(grid, &p.level, &p.slope, &p.alpha, &p.beta, year);
        }
    }
    repeated(&mut ends, worked, count);
    Some(ends)
}

// The factors of a path, or None where a cell that they need is out of range.
pub fn factors_of(grid: GridUnit, p: Params, path: Path) -> Option<[Ends; MOST_FACTORS]>
    requires { PathWithin p path }
    ensures { FactorsOf (grid_of grid) p path result }
{
    let walk = quote_walks::young_factors(grid, p, path)?;
    if walk.done < path.count {
        return old_factors(grid, &p, path, &walk);
    }
    Some(walk.ends)
}

// The factors of a path and, where it has days, of the part of a year after it, or None where a cell that they need is out of range.
pub fn all_factors(
    grid: GridUnit,
    p: Params,
    path: Path,
    part: Part,
) -> Option<[Ends; MOST_FACTORS]>
    requires { PathWithin p path × PartWithin path part }
    ensures { AllFactorsOf (grid_of grid) p path part result }
{
    let mut ends = factors_of(grid, p, path)?;
    if part.days == 0 {
        return Some(ends);
    }
    let count = path.count;
    ends[count] = model_part_year::part_cell(
        grid,
        p,
        path.age + count,
        path.year + count as u64,
        part.days,
        part.whole,
    )?;
    Some(ends)
}
