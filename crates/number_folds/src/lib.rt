// Survival and expectancy on a grid, as folds over the factors of a path: one pass over the factors.
#![tactic(auto)]

ghost use Rattle.std.specs.Prelude.{◌≡◌};
ghost use Rattle.number_exponential.specs.Units.{grid_of};
ghost use Rattle.number_folds.specs.Folds.{with_factor, survival_over, expectancy_over};
ghost use Rattle.number_folds.specs.code.Code.{AtMost, Chances};

use number_exponential::{Ends, GridUnit, unit_by};
use number_products::product_by;

// Room for the factors of the longest path: of a quote in 2014, with its last factor in 2184.
pub const MOST_FACTORS: usize = 171;

// A survival with one factor more.
pub fn with_factor(grid: GridUnit, s: Ends, p: Ends) -> Ends
    requires { AtMost (grid_of grid).unit s × AtMost (grid_of grid).unit p }
    ensures { result ≡ with_factor (grid_of grid) s p }
{
    let up = unit_by(grid) - 1;
    Ends {
        lower: product_by(grid, s.lower, p.lower, 0),
        upper: product_by(grid, s.upper, p.upper, up),
    }
}

// The survival over the factors.
pub fn survival_over(grid: GridUnit, factors: &[Ends]) -> Ends
    requires { Chances (grid_of grid) factors.now }
    ensures { result ≡ survival_over (grid_of grid) factors.now }
{
    let one = unit_by(grid);
    let mut survival = Ends {
        lower: one,
        upper: one,
    };
    for p in factors {
        survival = with_factor(grid, survival, *p);
    }
    survival
}

// The expectancy over the factors: one half, and after each factor the survival to it.
pub fn expectancy_over(grid: GridUnit, factors: &[Ends]) -> Ends
    requires { Chances (grid_of grid) factors.now }
    ensures { result ≡ expectancy_over (grid_of grid) factors.now }
{
    let one = unit_by(grid);
    // the half year that is lived, on average, in the year of death
    let half = one / 2;
    let mut sums = Ends {
        lower: half,
        upper: half,
    };
    let mut survival = Ends {
        lower: one,
        upper: one,
    };
    for factor in factors {
        survival = with_factor(grid, survival, *factor);
        sums = Ends {
            lower: sums.lower + survival.lower,
            upper: sums.upper + survival.upper,
        };
    }
    sums
}
