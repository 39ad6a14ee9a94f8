// −ln(1 − u) on either grid, u in units: the sum of u^k/k, k = 1 to 28 or to 41, with two ends. What stands below
// `log_between` takes a unit that is a constant in each call, so that the compiler makes a loop for each grid.
#![tactic(auto)]

ghost use Rattle.std.specs.Prelude.{◌≡◌, ◌*◌, ◌/◌, ◌≤◌, ◌<◌};
ghost use Rattle.number_whole.specs.Division.{ceil_div_ℕ};
ghost use Rattle.number_exponential.specs.Units.{grid_of};
ghost use Rattle.model_logarithm.specs.Logarithm.{log_lower, log_upper};

use number_exponential::{Ends, GridUnit, unit_by};
use number_products::product_by;

// The number of terms.
const TERMS: u64 = 28;

const FINE_TERMS: u64 = 41;

#[tactic(auto, unfolding(number_exponential::specs::Units::grid_of))]
fn terms_of(grid: GridUnit) -> u64
    ensures { result ≡ (grid_of grid).log_terms }
{
    match grid {
        GridUnit::Coarse => TERMS,
        GridUnit::Fine => FINE_TERMS,
    }
}

// The power after one, rounded down.
fn next_down(grid: GridUnit, u: u64, power: u64) -> u64
    requires { (u ≤ (grid_of grid).unit) × (power ≤ (grid_of grid).unit) }
    ensures { (result ≡ u * power / (grid_of grid).unit) × (result ≤ (grid_of grid).unit) }
{
    product_by(grid, u, power, 0)
}

// The power after one, rounded up.
fn next_up(grid: GridUnit, u: u64, power: u64) -> u64
    requires { (u ≤ (grid_of grid).unit) × (power ≤ (grid_of grid).unit) }
    ensures { (result ≡ ceil_div_ℕ (u * power) (grid_of grid).unit) × (result ≤ (grid_of grid).unit) }
{
    product_by(grid, u, power, unit_by(grid) - 1)
}

// A power over its place. On the coarse grid both are below 2^32, where a division takes less time.
fn over(grid: GridUnit, power: u64, place: u64) -> u64
    requires { (power ≤ 4 * (grid_of grid).unit) × (0 < place) × (place < 4294967296) }
    ensures { result ≡ power / place }
{
    match grid {
        GridUnit::Coarse => ((power as u32) / (place as u32)) as u64,
        GridUnit::Fine => power / place,
    }
}

// Both ends in one loop, from the second power on: the first is u, and halves take no division. The lower one: powers and
// quotients rounded down. The upper one: powers and quotients rounded up, and twice the next power over its place. From powers of
// 0 and of at most 1 on, what is left is a count.
fn between_on(grid: GridUnit, u: Ends) -> Ends
    requires { (u.lower ≤ (grid_of grid).unit) × (u.upper ≤ (grid_of grid).unit) }
    ensures { (result.lower ≡ log_lower (grid_of grid) u.lower) × (result.upper ≡ log_upper (grid_of grid) u.upper) }
{
    let terms = terms_of(grid);
    let low = u.lower;
    let high = u.upper;
    let mut down = next_down(grid, low, low);
    let mut up = next_up(grid, high, high);
    let mut least = low + down / 2;
    let mut most = high + (up + 1) / 2;
    for k in 2..terms {
        let place = k + 1;
        down = next_down(grid, low, down);
        up = next_up(grid, high, up);
        least += over(grid, down, place);
        most += over(grid, up + k, place);
        if up + 2 * down < 2 {
            return Ends {
                lower: least,
                upper: most + up * (terms + 1 - place),
            };
        }
    }
    Ends {
        lower: least,
        upper: most + over(grid, 2 * next_up(grid, high, up) + terms, terms + 1),
    }
}

pub fn log_between(grid: GridUnit, u: Ends) -> Ends
    requires { (u.lower ≤ (grid_of grid).unit) × (u.upper ≤ (grid_of grid).unit) }
    ensures { (result.lower ≡ log_lower (grid_of grid) u.lower) × (result.upper ≡ log_upper (grid_of grid) u.upper) }
{
    match grid {
        GridUnit::Coarse => between_on(GridUnit::Coarse, u),
        GridUnit::Fine => between_on(GridUnit::Fine, u),
    }
}
