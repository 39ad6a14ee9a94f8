// Products over the unit of a grid, and quotients of a product with it, in numbers of 64 bits. On the grid of 10^-13 a product
// of two ends does not fit, and is taken by parts.
#![tactic(auto)]

ghost use Rattle.std.specs.Prelude.{◌≡◌, ◌+◌, ◌*◌, ◌/◌, ◌≤◌, ◌<◌};
ghost use Rattle.number_exponential.specs.Units.{ten_trillionths, grid_of};

use number_exponential::{FINE_UNIT, GridUnit, UNIT};

// (a·b + c)/10^13, with a = a1·10^7 + a0, b = b1·10^7 + b0 and a1·b0 + a0·b1 = m1·10^6 + m0:
// a·b = 10^13·(10·a1·b1 + m1) + m0·10^7 + a0·b0.
fn fine_product(a: u64, b: u64, c: u64) -> u64
    requires { (a ≤ ten_trillionths.unit) × (b ≤ ten_trillionths.unit) × (c ≤ ten_trillionths.unit) }
    ensures { result ≡ (a * b + c) / ten_trillionths.unit }
{
    let a1 = a / 10_000_000;
    let a0 = a % 10_000_000;
    let b1 = b / 10_000_000;
    let b0 = b % 10_000_000;
    let mid = a1 * b0 + a0 * b1;
    let whole = 10 * (a1 * b1) + mid / 1_000_000;
    whole + ((mid % 1_000_000) * 10_000_000 + a0 * b0 + c) / FINE_UNIT
}

// (a·b + c)/unit, by whether the unit is the fine one: rounded down where c is 0, and rounded up where it is one less than the unit.
pub fn product_by(grid: GridUnit, a: u64, b: u64, c: u64) -> u64
    requires { (a ≤ (grid_of grid).unit) × (b ≤ (grid_of grid).unit) × (c ≤ (grid_of grid).unit) }
    ensures { result ≡ (a * b + c) / (grid_of grid).unit }
{
    match grid {
        GridUnit::Coarse => (a * b + c) / UNIT,
        GridUnit::Fine => fine_product(a, b, c),
    }
}

// (n·10^13 + c)/d by long division: the rests times 10^4, 10^4 and 10^5.
fn fine_quotient(n: u64, d: u64, c: u64) -> u64
    requires { (n ≤ ten_trillionths.unit) × (ten_trillionths.unit ≤ d) × (d ≤ 2 * ten_trillionths.unit) × (c < d) }
    ensures { result ≡ (n * ten_trillionths.unit + c) / d }
{
    let first = n * 10_000;
    let second = first % d * 10_000;
    let third = second % d * 100_000 + c;
    (first / d * 10_000 + second / d) * 100_000 + third / d
}

// (n·unit + c)/d for a divisor of one or two units: rounded down where c is 0, and rounded up where it is one less than d.
pub fn quotient_by(grid: GridUnit, n: u64, d: u64, c: u64) -> u64
    requires { (n ≤ (grid_of grid).unit) × ((grid_of grid).unit ≤ d) × (d ≤ 2 * (grid_of grid).unit) × (c < d) }
    ensures { result ≡ (n * (grid_of grid).unit + c) / d }
{
    match grid {
        GridUnit::Coarse => (n * UNIT + c) / d,
        GridUnit::Fine => fine_quotient(n, d, c),
    }
}
