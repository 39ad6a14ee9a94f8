// The price of an annuity on a grid, as a fold over the factors of a path: one pass over the factors.
#![tactic(auto)]

ghost use Rattle.std.specs.Prelude.{◌≡◌, ◌≤◌};
ghost use Rattle.number_exponential.specs.Units.{ten_trillionths, grid_of};
ghost use Rattle.number_folds.specs.code.Code.{AtMost, Chances};
ghost use Rattle.number_annuity.specs.Annuity.{most_rate, discounted, annuity_over};

use number_exponential::{Ends, GridUnit, unit_by};
use number_folds::with_factor;
use number_whole::ceil_div_u;

// What a rate is counted in, and the highest one.
const RATE_UNIT: u64 = 1_000_000;

pub const MOST_RATE: u64 = 200_000;

// A discount over one year more: of either grid it fits, times 10^6, as no unit is smaller than the fine one.
#[tactic(auto, unfolding(crate::specs::Annuity::discounted, number_exponential::specs::Outward::outward_over))]
fn discounted(d: Ends, rate: u64) -> Ends
    requires { AtMost ten_trillionths.unit d × (rate ≤ most_rate) }
    ensures { result ≡ discounted rate d }
{
    let divisor = RATE_UNIT + rate;
    Ends {
        lower: d.lower * RATE_UNIT / divisor,
        upper: ceil_div_u(d.upper * RATE_UNIT, divisor),
    }
}

// The price over the factors: 1 now, and after each factor the discount times the survival to it.
pub fn annuity_over(grid: GridUnit, factors: &[Ends], rate: u64) -> Ends
    requires { Chances (grid_of grid) factors.now × (rate ≤ most_rate) }
    ensures { result ≡ annuity_over (grid_of grid) rate factors.now }
{
    let whole = unit_by(grid);
    let one = Ends {
        lower: whole,
        upper: whole,
    };
    let mut price = one;
    let mut discount = one;
    let mut survival = one;
    for p in factors {
        survival = with_factor(grid, survival, *p);
        let later = discounted(discount, rate);
        let payment = with_factor(grid, later, survival);
        price = Ends {
            lower: price.lower + payment.lower,
            upper: price.upper + payment.upper,
        };
        discount = later;
    }
    price
}
