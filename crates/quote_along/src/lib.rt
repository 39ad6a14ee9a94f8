// The quote of a fold along a path and a part of a year after it: the two ends of the figure with the figure itself, or the
// refusal of a cell out of range. A figure that the coarse ends leave open is worked again on the fine grid.
#![tactic(auto)]

ghost use Rattle.std.specs.Prelude.{◌≡◌, ◌&&◌, ◌≤◌};
ghost use Rattle.quote_walks.specs.code.Code.{PathWithin};
ghost use Rattle.quote_kinds.specs.code.Code.{RateWithin};
ghost use Rattle.number_folds.specs.code.Code.{most_factors};
ghost use Rattle.quote_factors.specs.code.Code.{PartWithin};
ghost use Rattle.quote_along.specs.code.Code.{count_with, left_open, AnswerAlong, QuoteAlong};

use number_exact::Figure;
use number_exponential::GridUnit;
use quote_paths::{Fold, Part, Path};
use set_params::Params;
use set_refusal::Refusal;

// The two ends of a figure in their unit, with the figure: a number of steps, or open.
#[derive(Clone, Copy)]
pub struct Quote {
    pub unit: GridUnit,
    pub lower: u64,
    pub upper: u64,
    pub figure: Figure,
}

// A quote, or the refusal.
pub type Answer = Result<Quote, Refusal>;

// One factor more where there are days.
#[tactic(auto, unfolding(crate::specs::code::Code::count_with))]
fn count_with(count: usize, days: u64) -> usize
    requires { count ≤ most_factors }
    ensures { result ≡ count_with count days }
{
    if days == 0 {
        return count;
    }
    count + 1
}

// The quote of a fold on one grid, or the refusal of a cell that is out of range there.
pub fn answer_along(grid: GridUnit, p: Params, fold: Fold, path: Path, part: Part) -> Answer
    requires { PathWithin p path × PartWithin path part × RateWithin fold }
    ensures { AnswerAlong grid p fold path part result }
{
    let Some(ends) = quote_factors::all_factors(grid, p, path, part) else {
        return Err(Refusal::LogForceOutOfRange);
    };
    let count = count_with(path.count, part.days);
    let e = quote_kinds::folded(grid, fold, &ends[..count]);
    let figure = number_exact::figure_of(quote_kinds::step_on(grid, fold), e.lower, e.upper);
    Ok(Quote {
        unit: grid,
        lower: e.lower,
        upper: e.upper,
        figure,
    })
}

// Whether an answer is to be worked again: it may be, and is a quote whose figure is open.
#[tactic(auto, unfolding(crate::specs::code::Code::left_open))]
pub fn is_left_open(again: bool, answer: Answer) -> bool
    ensures { result ≡ again && left_open answer }
{
    again && matches!(answer, Ok(quote) if number_exact::is_open(quote.figure))
}

// The quote of a fold, worked again on the fine grid where its figure is open and it may be. Two rounds of one loop, not two calls:
// the compiler puts one call in its place, and the set is not copied for it.
pub fn quote_along(again: bool, p: Params, fold: Fold, path: Path, part: Part) -> Answer
    requires { PathWithin p path × PartWithin path part × RateWithin fold }
    ensures { QuoteAlong again p fold path part result }
{
    let mut grid = GridUnit::Coarse;
    'round: loop {
        let answer = answer_along(grid, p, fold, path, part);
        match grid {
            GridUnit::Coarse if is_left_open(again, answer) => grid = GridUnit::Fine,
            _ => return answer,
        }
    }
}
