// The grids of 10^-9 and of 10^-13 and the exponential of −z on a grid: definitions and laws. The code is in `number_exp_ends`.

#![tactic(auto)]

ghost use Rattle.std.specs.Prelude.{◌≡◌};
ghost use Rattle.number_exponential.specs.Units.{grid_of};

// A grid, named by its unit: 10^-9 or 10^-13. The ends of a quote lie on one of them.
#[derive(Clone, Copy, PartialEq, Eq)]
pub enum GridUnit {
    Coarse,
    Fine,
}

// Units in 1.
pub const UNIT: u64 = 1_000_000_000;

pub const FINE_UNIT: u64 = 10_000_000_000_000;

// Fine units in 10^-9.
pub const FINE_SCALE: u64 = 10_000;

// Units in a step of the constants.
pub const STEP: u64 = 500_000_000;

// z from which the exponential is [0, 1].
pub const CUTOFF: u64 = 21_000_000_000;

// Two ends, in units.
#[derive(Clone, Copy)]
pub struct Ends {
    pub lower: u64,
    pub upper: u64,
}

// Units in 1 of a grid.
pub fn unit_by(grid: GridUnit) -> u64
    ensures { result ≡ (grid_of grid).unit }
{
    match grid {
        GridUnit::Coarse => UNIT,
        GridUnit::Fine => FINE_UNIT,
    }
}
