// The constants of the exponential on the two grids: e to minus so many half steps.
#![tactic(auto)]

ghost use Rattle.std.specs.Prelude.{◌≡◌};
ghost use Rattle.number_exponential.specs.Units.{billionths, ten_trillionths, grid_of};
ghost use Rattle.number_exponential.specs.Exponential.{constant_lower};

use number_exponential::GridUnit;

// The whole part of 10^9·e^−(n/2). A constant array would be built anew at each call; of the cases the compiler makes a table.
fn coarse_part(n: u64) -> u64
    ensures { result ≡ constant_lower billionths n }
{
    match n {
        0 => 1000000000,
        1 => 606530659,
        2 => 367879441,
        3 => 223130160,
        4 => 135335283,
        5 => 82084998,
        6 => 49787068,
        7 => 30197383,
        8 => 18315638,
        9 => 11108996,
        10 => 6737946,
        11 => 4086771,
        12 => 2478752,
        13 => 1503439,
        14 => 911881,
        15 => 553084,
        16 => 335462,
        17 => 203468,
        18 => 123409,
        19 => 74851,
        20 => 45399,
        21 => 27536,
        22 => 16701,
        23 => 10130,
        24 => 6144,
        25 => 3726,
        26 => 2260,
        27 => 1370,
        28 => 831,
        29 => 504,
        30 => 305,
        31 => 185,
        32 => 112,
        33 => 68,
        34 => 41,
        35 => 25,
        36 => 15,
        37 => 9,
        38 => 5,
        39 => 3,
        40 => 2,
        41 => 1,
        _ => 0,
    }
}

// The whole part of 10^13·e^−(n/2).
fn fine_part(n: u64) -> u64
    ensures { result ≡ constant_lower ten_trillionths n }
{
    match n {
        0 => 10000000000000,
        1 => 6065306597126,
        2 => 3678794411714,
        3 => 2231301601484,
        4 => 1353352832366,
        5 => 820849986238,
        6 => 497870683678,
        7 => 301973834223,
        8 => 183156388887,
        9 => 111089965382,
        10 => 67379469990,
        11 => 40867714384,
        12 => 24787521766,
        13 => 15034391929,
        14 => 9118819655,
        15 => 5530843701,
        16 => 3354626279,
        17 => 2034683690,
        18 => 1234098040,
        19 => 748518298,
        20 => 453999297,
        21 => 275364493,
        22 => 167017007,
        23 => 101300935,
        24 => 61442123,
        25 => 37266531,
        26 => 22603294,
        27 => 13709590,
        28 => 8315287,
        29 => 5043476,
        30 => 3059023,
        31 => 1855391,
        32 => 1125351,
        33 => 682560,
        34 => 413993,
        35 => 251099,
        36 => 152299,
        37 => 92374,
        38 => 56027,
        39 => 33982,
        40 => 20611,
        41 => 12501,
        42 => 7582,
        43 => 4599,
        44 => 2789,
        45 => 1691,
        46 => 1026,
        47 => 622,
        48 => 377,
        49 => 228,
        50 => 138,
        51 => 84,
        52 => 51,
        53 => 30,
        54 => 18,
        55 => 11,
        56 => 6,
        57 => 4,
        58 => 2,
        59 => 1,
        _ => 0,
    }
}

// The whole part of unit·e^−(n/2).
pub fn whole_part(grid: GridUnit, n: u64) -> u64
    ensures { result ≡ constant_lower (grid_of grid) n }
{
    match grid {
        GridUnit::Coarse => coarse_part(n),
        GridUnit::Fine => fine_part(n),
    }
}
