// Division of 64-bit numbers by a positive number, rounded down for a lower end and up for an upper end; and two signed
// ends: the least and the greatest product with a number, and division that rounds an end outward.
#![tactic(auto)]

ghost use Rattle.std.specs.Prelude.{◌≡◌, cond, ◌+◌, ◌-◌, ◌<◌, ◌^◌, pos, ◌+ℤ◌};
ghost use Rattle.std.specs.Int.Signed.{non_neg};
ghost use Rattle.std.specs.Int.{w64};
ghost use Rattle.std.proofs.Common.{SFits};
ghost use Rattle.number_whole.specs.Division.{floor_div, ceil_div, ceil_div_ℕ};
ghost use Rattle.number_whole.specs.code.Sizes.{Under, Divides};
ghost use Rattle.number_whole.specs.SignedEnds.{least_product, greatest_product};

// Two ends, in units.
#[derive(Clone, Copy)]
pub struct SignedEnds {
    pub lower: i64,
    pub upper: i64,
}

// z + by, for z at least −by. Both ways the machine adds once and tests nothing.
fn shifted(z: i64, by: u64) -> u64
    requires { Under z by × (by < 2 ^ 63) }
    ensures { pos result ≡ pos by +ℤ z }
{
    if z < 0 {
        return by - 1 - (-1 - z) as u64;
    }
    by + z as u64
}

// z / d rounded down, toward minus infinity, for z within k·d of 0: k·d is added, so that no sign is asked for, and k taken away.
pub fn floor_div(z: i64, d: u64, k: u64) -> i64
    requires { Divides z d k }
    ensures { result ≡ floor_div z d }
{
    (shifted(z, k * d) / d) as i64 - k as i64
}

// z / d rounded up, toward plus infinity.
pub fn ceil_div(z: i64, d: u64, k: u64) -> i64
    requires { Divides z d k }
    ensures { result ≡ ceil_div z d }
{
    (shifted(z, k * d + (d - 1)) / d) as i64 - k as i64
}

// n / d rounded up, among numbers that are at least 0.
pub fn ceil_div_u(n: u64, d: u64) -> u64
    requires { (0 < d) × (n + (d - 1) < 2 ^ 64) }
    ensures { result ≡ ceil_div_ℕ n d }
{
    (n + (d - 1)) / d
}

// An end, or the other where c is negative. Of two numbers one is chosen in registers; of two fields of a struct the compiler
// would load one by its place.
pub fn end_by(c: i64, end: i64, other: i64) -> i64
    ensures { result ≡ cond (non_neg c) end other }
{
    if c < 0 {
        return other;
    }
    end
}

// The least product of c with a number between the ends: a negative c exchanges them.
pub fn least_product(c: i64, e: SignedEnds) -> i64
    requires { SFits w64 (least_product c e) }
    ensures { result ≡ least_product c e }
{
    c * end_by(c, e.lower, e.upper)
}

// The greatest product.
pub fn greatest_product(c: i64, e: SignedEnds) -> i64
    requires { SFits w64 (greatest_product c e) }
    ensures { result ≡ greatest_product c e }
{
    c * end_by(c, e.upper, e.lower)
}

// z / d, rounded up for an upper end and down for a lower one.
pub fn outward_div(z: i64, d: u64, k: u64, upper: bool) -> i64
    requires { Divides z d k }
    ensures { result ≡ cond upper (ceil_div z d) (floor_div z d) }
{
    if upper {
        return ceil_div(z, d, k);
    }
    floor_div(z, d, k)
}
