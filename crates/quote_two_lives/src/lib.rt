// Two lives on a grid: the chance of a status from the two survivals, and its expectancy in one pass over the
// factors of the two.
#![tactic(auto)]

ghost use Rattle.std.specs.Prelude.{◌≡◌, length};
ghost use Rattle.number_exponential.specs.Units.{grid_of};
ghost use Rattle.number_folds.specs.code.Code.{AtMost, Chances};
ghost use Rattle.quote_two_lives.specs.TwoLives.{status_chance, status_over, status_expectancy_over, couple_over};

use model_force::death_of;
use number_exponential::{Ends, GridUnit, unit_by};
use number_folds::with_factor;
use quote_couple_kinds::{CoupleKind, Status};

// The chance of a status from the survivals of the two lives.
#[tactic(auto, unfolding(crate::specs::TwoLives::status_chance))]
pub fn status_chance(grid: GridUnit, status: Status, s: Ends, t: Ends) -> Ends
    requires { AtMost (grid_of grid).unit s × AtMost (grid_of grid).unit t }
    ensures { result ≡ status_chance status (grid_of grid) s t }
{
    match status {
        Status::JointLife => with_factor(grid, s, t),
        Status::LastSurvivor => death_of(
            grid,
            with_factor(grid, death_of(grid, s), death_of(grid, t)),
        ),
    }
}

// The chance of a status after as many years as each life has factors.
#[tactic(auto, unfolding(crate::specs::TwoLives::status_over))]
pub fn status_over(grid: GridUnit, status: Status, first: &[Ends], second: &[Ends]) -> Ends
    requires { Chances (grid_of grid) first.now × Chances (grid_of grid) second.now × (length first.now ≡ length second.now) }
    ensures { result ≡ status_over status (grid_of grid) first.now second.now }
{
    let s = number_folds::survival_over(grid, first);
    let t = number_folds::survival_over(grid, second);
    status_chance(grid, status, s, t)
}

// The expectancy of a status: one half, and after each factor of the two lives its chance.
pub fn status_expectancy_over(
    grid: GridUnit,
    status: Status,
    first: &[Ends],
    second: &[Ends],
) -> Ends
    requires { Chances (grid_of grid) first.now × Chances (grid_of grid) second.now × (length first.now ≡ length second.now) }
    ensures { result ≡ status_expectancy_over status (grid_of grid) first.now second.now }
{
    let one = unit_by(grid);
    // the half year that is lived, on average, in the year in which a status ends
    let half = one / 2;
    let mut sums = Ends {
        lower: half,
        upper: half,
    };
    let mut s = Ends {
        lower: one,
        upper: one,
    };
    let mut t = Ends {
        lower: one,
        upper: one,
    };
    for (p, q) in first.iter().zip(second) {
        s = with_factor(grid, s, *p);
        t = with_factor(grid, t, *q);
        let chance = status_chance(grid, status, s, t);
        sums = Ends {
            lower: sums.lower + chance.lower,
            upper: sums.upper + chance.upper,
        };
    }
    sums
}

// What a kind takes of the two lives' factors.
#[tactic(auto, unfolding(crate::specs::TwoLives::couple_over))]
pub fn couple_over(grid: GridUnit, kind: CoupleKind, first: &[Ends], second: &[Ends]) -> Ends
    requires { Chances (grid_of grid) first.now × Chances (grid_of grid) second.now × (length first.now ≡ length second.now) }
    ensures { result ≡ couple_over kind (grid_of grid) first.now second.now }
{
    match kind {
        CoupleKind::JointLife => status_over(grid, Status::JointLife, first, second),
        CoupleKind::LastSurvivor => status_over(grid, Status::LastSurvivor, first, second),
        CoupleKind::JointExpectancy => status_expectancy_over(
            grid,
            Status::JointLife,
            first,
            second,
        ),
        CoupleKind::LastExpectancy => status_expectancy_over(
            grid,
            Status::LastSurvivor,
            first,
            second,
        ),
    }
}
