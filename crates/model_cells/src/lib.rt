// One cell of the table on a grid: p, the chance to live through the year, with two ends, from an age's
// parameters at ages to 90 and by the closure above, which is fitted to the ages 80 to 90 of the year.
#![tactic(auto)]

ghost use Rattle.std.specs.Prelude.{◌≡◌, T, IfSome};
ghost use Rattle.number_exponential.specs.Units.{grid_of};
ghost use Rattle.model_log_force.specs.LogForce.{cell_force};
ghost use Rattle.model_closure.specs.code.Code.{InLimit, RowWithin};
ghost use Rattle.model_log_force.specs.code.Year.{CellWithin};
ghost use Rattle.model_cells.specs.code.Code.{young_force_cell, old_force_cell, lived_cell, young_cell, old_cell};
ghost use Rattle.model_cells.specs.code.Fitted.{LentIn, FittedIn};

use model_closure::{FIRST_FITTED, FITTED};
use model_log_force::Year;
use number_exponential::{Ends, GridUnit};
use number_whole::SignedEnds;
use set_params::{AGES, Age};

// The ends of H at ages 80 to 90 of a year of the set that lends the four runs, where its cells are in range.
pub fn fitted_in<'a>(
    grid: GridUnit,
    level: &'a [i64; AGES],
    slope: &'a [i64; AGES],
    alpha: &'a [i64; AGES],
    beta: &'a [i64; AGES],
    y: Year,
) -> Option<[SignedEnds; 11]>
    requires { LentIn (grid_of grid) level.now slope.now alpha.now beta.now y }
    ensures { FittedIn (grid_of grid) level.now slope.now alpha.now beta.now y result }
{
    let mut ends = [SignedEnds { lower: 0, upper: 0 }; 11];
    for i in 0..FITTED {
        let m = model_log_force::log_force_at(
            grid,
            set_params::age_of_runs(level, slope, alpha, beta, FIRST_FITTED + i),
            y,
        );
        if !model_log_force::in_range(grid, m) {
            // a cell of these ages is out of range
            return None;
        }
        ends[i] = model_force::inverse_logistic(grid, m);
    }
    Some(ends)
}

// The force at an age to 90, by its parameters.
pub fn young_force(grid: GridUnit, age: Age, y: Year) -> Option<Ends>
    requires { CellWithin (grid_of grid) age y }
    ensures { result ≡ young_force_cell (grid_of grid) (cell_force (grid_of grid) age y.period y.kappas) }
{
    let m = model_log_force::log_force_at(grid, age, y);
    if !model_log_force::in_range(grid, m) {
        // a needed cell is out of range
        return None;
    }
    Some(model_force::force_to_90(grid, m))
}

// The force at an age above 90, by its row of weights and the ends of H of its year.
pub fn old_force(grid: GridUnit, row: [i64; 11], f: Option<[SignedEnds; 11]>) -> Option<Ends>
    requires { RowWithin row × IfSome f InLimit }
    ensures { result ≡ old_force_cell (grid_of grid) row f }
{
    let ends = f?;
    Some(model_logistic::logistic(grid, model_closure::closed_sum(row, ends)))
}

// p of a force, where there is one.
fn lived(grid: GridUnit, force: Option<Ends>) -> Option<Ends>
    ensures { result ≡ lived_cell (grid_of grid) force }
{
    force.map(|f| number_exp_ends::exp_between(grid, f))
}

// The cell at an age to 90, by its parameters.
pub fn young_cell(grid: GridUnit, age: Age, y: Year) -> Option<Ends>
    requires { CellWithin (grid_of grid) age y }
    ensures { result ≡ young_cell (grid_of grid) (cell_force (grid_of grid) age y.period y.kappas) }
{
    lived(grid, young_force(grid, age, y))
}

// The cell at an age above 90, by its row of weights and the ends of H of its year.
pub fn old_cell(grid: GridUnit, row: [i64; 11], f: Option<[SignedEnds; 11]>) -> Option<Ends>
    requires { RowWithin row × IfSome f InLimit }
    ensures { result ≡ old_cell (grid_of grid) row f }
{
    lived(grid, old_force(grid, row, f))
}
