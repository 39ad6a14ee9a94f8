// The closure: the weights of the fitted ages 80 to 90 at the ages 91 to 120, and G at these ages on the grid, the weighted
// sum of H at the fitted ages over 110.
#![tactic(auto)]

ghost use Rattle.std.specs.Prelude.{◌≡◌};
ghost use Rattle.number_whole.specs.code.Sizes.{Under, Within};
ghost use Rattle.model_closure.specs.code.Totals.{weight_limit};
ghost use Rattle.model_closure.specs.Closure.{weighted_mean};
ghost use Rattle.model_closure.specs.code.Code.{end_limit, sums_limit, InLimit, weight_of, RowWithin, with_product};
ghost use Rattle.model_closure.specs.code.Table.{totalled, ruled};

use number_whole::SignedEnds;

// Ages 80 to 90 are fitted, and ages 91 to 120 are closed.
pub const FIRST_FITTED: usize = 80;

pub const FITTED: usize = 11;

pub const FIRST_CLOSED: usize = FIRST_FITTED + FITTED;

pub const LAST_CLOSED: usize = 120;

// What a weight is a part of.
pub const WEIGHT_UNIT: u64 = 110;

// So many of it lie beyond every weighted sum.
const UNITS_AWAY: u64 = 20_000_000_000_000_000;

// The weights in 110ths: a row for each age from 91 to 120, an entry for each age from 80 to 90.
const WEIGHTS: [[i64; 11]; 30] = [
    [-20, -14, -8, -2, 4, 10, 16, 22, 28, 34, 40],
    [-25, -18, -11, -4, 3, 10, 17, 24, 31, 38, 45],
    [-30, -22, -14, -6, 2, 10, 18, 26, 34, 42, 50],
    [-35, -26, -17, -8, 1, 10, 19, 28, 37, 46, 55],
    [-40, -30, -20, -10, 0, 10, 20, 30, 40, 50, 60],
    [-45, -34, -23, -12, -1, 10, 21, 32, 43, 54, 65],
    [-50, -38, -26, -14, -2, 10, 22, 34, 46, 58, 70],
    [-55, -42, -29, -16, -3, 10, 23, 36, 49, 62, 75],
    [-60, -46, -32, -18, -4, 10, 24, 38, 52, 66, 80],
    [-65, -50, -35, -20, -5, 10, 25, 40, 55, 70, 85],
    [-70, -54, -38, -22, -6, 10, 26, 42, 58, 74, 90],
    [-75, -58, -41, -24, -7, 10, 27, 44, 61, 78, 95],
    [-80, -62, -44, -26, -8, 10, 28, 46, 64, 82, 100],
    [-85, -66, -47, -28, -9, 10, 29, 48, 67, 86, 105],
    [-90, -70, -50, -30, -10, 10, 30, 50, 70, 90, 110],
    [-95, -74, -53, -32, -11, 10, 31, 52, 73, 94, 115],
    [-100, -78, -56, -34, -12, 10, 32, 54, 76, 98, 120],
    [-105, -82, -59, -36, -13, 10, 33, 56, 79, 102, 125],
    [-110, -86, -62, -38, -14, 10, 34, 58, 82, 106, 130],
    [-115, -90, -65, -40, -15, 10, 35, 60, 85, 110, 135],
    [-120, -94, -68, -42, -16, 10, 36, 62, 88, 114, 140],
    [-125, -98, -71, -44, -17, 10, 37, 64, 91, 118, 145],
    [-130, -102, -74, -46, -18, 10, 38, 66, 94, 122, 150],
    [-135, -106, -77, -48, -19, 10, 39, 68, 97, 126, 155],
    [-140, -110, -80, -50, -20, 10, 40, 70, 100, 130, 160],
    [-145, -114, -83, -52, -21, 10, 41, 72, 103, 134, 165],
    [-150, -118, -86, -54, -22, 10, 42, 74, 106, 138, 170],
    [-155, -122, -89, -56, -23, 10, 43, 76, 109, 142, 175],
    [-160, -126, -92, -58, -24, 10, 44, 78, 112, 146, 180],
    [-165, -130, -95, -60, -25, 10, 45, 80, 115, 150, 185],
];

// The whole table, for a loop over ages to take once.
pub fn table() -> [[i64; 11]; 30]
    ensures { totalled result ≡ ruled }
{
    WEIGHTS
}

// The least and the greatest sum with w times the ends added.
fn add_product(sums: SignedEnds, w: i64, e: SignedEnds) -> SignedEnds
    requires { Within sums_limit sums × Under w weight_limit × Within end_limit e }
    ensures { result ≡ with_product sums w e }
{
    let least = number_whole::least_product(w, e);
    let greatest = number_whole::greatest_product(w, e);
    SignedEnds {
        lower: sums.lower + least,
        upper: sums.upper + greatest,
    }
}

// The weighted sum of the ends of H over 110, by a row of weights.
pub fn closed_sum(row: [i64; 11], h: [SignedEnds; 11]) -> SignedEnds
    requires { RowWithin row × InLimit h }
    ensures { result ≡ weighted_mean (weight_of row) h }
{
    let mut sums = SignedEnds { lower: 0, upper: 0 };
    for (w, e) in row.iter().zip(&h) {
        sums = add_product(sums, *w, *e);
    }
    let least = sums.lower;
    let greatest = sums.upper;
    SignedEnds {
        lower: number_whole::outward_div(least, WEIGHT_UNIT, UNITS_AWAY, false),
        upper: number_whole::outward_div(greatest, WEIGHT_UNIT, UNITS_AWAY, true),
    }
}
