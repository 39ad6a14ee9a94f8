// A figure from two ends in units: each end is rounded half up to whole steps, and the figure is printed when both give
// one step.
#![tactic(auto)]

ghost use Rattle.std.specs.Prelude.{◌≡◌, ◌≤◌, ◌<◌, ◌^◌};
ghost use Rattle.number_exact.specs.Figure.{half_up, figure_of, is_open};

// 0.00001, in units of 10^-9.
pub const PROBABILITY_STEP: u64 = 10_000;

// 0.01, in units of 10^-9.
pub const EXPECTANCY_STEP: u64 = 10_000_000;

// 0.1, in units of 10^-9.
pub const PRICE_STEP: u64 = 100_000_000;

// A number of steps, or two ends that round to different steps.
#[derive(Clone, Copy)]
pub enum Figure {
    Printed(u64),
    Open,
}

// An end in steps, rounded half up.
#[tactic(auto, unfolding(crate::specs::Figure::half_up))]
fn half_up(step: u64, e: u64) -> u64
    requires { (0 < step) × (step ≤ 2 ^ 40) × (e < 2 ^ 62) }
    ensures { result ≡ half_up step e }
{
    (2 * e + step) / (2 * step)
}

// The figure of two ends.
#[tactic(auto, unfolding(crate::specs::Figure::figure_of, crate::specs::Figure::half_up))]
pub fn figure_of(step: u64, lower: u64, upper: u64) -> Figure
    requires { (0 < step) × (step ≤ 2 ^ 40) × (lower < 2 ^ 62) × (upper < 2 ^ 62) }
    ensures { result ≡ figure_of step (record { lower = lower; upper = upper }) }
{
    let low = half_up(step, lower);
    let high = half_up(step, upper);
    if low == high {
        return Figure::Printed(low);
    }
    Figure::Open
}

// Whether a figure is open.
#[tactic(auto, unfolding(crate::specs::Figure::is_open))]
pub fn is_open(figure: Figure) -> bool
    ensures { result ≡ is_open figure }
{
    matches!(figure, Figure::Open)
}
