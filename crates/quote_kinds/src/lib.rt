// The kinds of figure, and what each takes of a path: one rule a kind, and a step and a fold for each of four figures.
#![tactic(auto)]

ghost use Rattle.std.specs.Prelude.{◌≡◌, ◌*◌, ◌≤◌, T};
ghost use Rattle.number_whole.specs.code.Sizes.{Under};
ghost use Rattle.quote_calendar.specs.Calendar.{is_day};
ghost use Rattle.number_exponential.specs.Units.{grid_of};
ghost use Rattle.model_closure.specs.Weights.{last_closed};
ghost use Rattle.number_folds.specs.code.Code.{Chances};
ghost use Rattle.quote_paths.specs.Values.{fold_over};
ghost use Rattle.set_params.specs.Limits.{last_years};
ghost use Rattle.quote_kinds.specs.Kinds.{rule_of, rate_of, most_span, longest_span, years_on, count_of, step_of, decimals_of};
ghost use Rattle.quote_kinds.specs.Kinds.{span_of, part_of};
ghost use Rattle.quote_paths.specs.code.Code.{IsPart};
ghost use Rattle.quote_kinds.specs.code.Code.{RateWithin};

use model_closure::LAST_CLOSED;
use number_exact::{EXPECTANCY_STEP, PRICE_STEP, PROBABILITY_STEP};
use number_exponential::{Ends, FINE_SCALE, GridUnit};
use quote_paths::{Fold, Part};
use set_params::{LAST_YEARS, QUOTE_YEARS};

// What may be asked of a life: `q`, `coh`, `per`, `ecoh` and `eper`, with a rate `acoh` and `aper`, and to a date `day`.
#[derive(Clone, Copy)]
pub enum Kind {
    Death,
    CohortSurvival,
    PeriodSurvival,
    CohortExpectancy,
    PeriodExpectancy,
    CohortAnnuity(i64),
    PeriodAnnuity(i64),
    Day,
}

// A kind's fold, whether its path is the cohort's, its last year, counted from the start year, and whether its term is a date.
#[derive(Clone, Copy)]
pub struct Rule {
    pub fold: Fold,
    pub cohort: bool,
    pub years: i64,
    pub dated: bool,
}

// The rule of a kind.
#[tactic(auto, unfolding(crate::specs::Kinds::rule_of))]
pub fn rule_of(kind: Kind) -> Rule
    ensures { result ≡ rule_of kind }
{
    match kind {
        Kind::Death => Rule {
            fold: Fold::Death,
            cohort: true,
            years: LAST_YEARS,
            dated: false,
        },
        Kind::CohortSurvival => Rule {
            fold: Fold::Survival,
            cohort: true,
            years: QUOTE_YEARS,
            dated: false,
        },
        Kind::PeriodSurvival => Rule {
            fold: Fold::Survival,
            cohort: false,
            years: QUOTE_YEARS,
            dated: false,
        },
        Kind::CohortExpectancy => Rule {
            fold: Fold::Expectancy,
            cohort: true,
            years: QUOTE_YEARS,
            dated: false,
        },
        Kind::PeriodExpectancy => Rule {
            fold: Fold::Expectancy,
            cohort: false,
            years: QUOTE_YEARS,
            dated: false,
        },
        Kind::CohortAnnuity(rate) => Rule {
            fold: Fold::Annuity(rate),
            cohort: true,
            years: QUOTE_YEARS,
            dated: false,
        },
        Kind::PeriodAnnuity(rate) => Rule {
            fold: Fold::Annuity(rate),
            cohort: false,
            years: QUOTE_YEARS,
            dated: false,
        },
        Kind::Day => Rule {
            fold: Fold::Survival,
            cohort: true,
            years: QUOTE_YEARS,
            dated: true,
        },
    }
}

// The rate of an annuity, 0 where none is taken.
#[tactic(auto, unfolding(crate::specs::Kinds::rate_of))]
pub fn rate_of(fold: Fold) -> i64
    ensures { result ≡ rate_of fold }
{
    match fold {
        Fold::Death => 0,
        Fold::Survival => 0,
        Fold::Expectancy => 0,
        Fold::Annuity(rate) => rate,
    }
}

// The longest span at an age of the table.
#[tactic(auto, unfolding(crate::specs::Kinds::most_span))]
fn most_span(fold: Fold, age: usize) -> usize
    requires { age ≤ last_closed }
    ensures { result ≡ most_span fold age }
{
    match fold {
        Fold::Death => 0,
        Fold::Survival => LAST_CLOSED + 1 - age,
        Fold::Expectancy => 0,
        Fold::Annuity(_) => 0,
    }
}

// The longest span of a rule at an age of the table.
#[tactic(auto, unfolding(crate::specs::Kinds::longest_span))]
pub fn longest_span(rule: Rule, age: usize) -> usize
    requires { age ≤ last_closed }
    ensures { result ≡ longest_span rule age }
{
    if rule.dated {
        return LAST_CLOSED - age;
    }
    let fold = rule.fold;
    most_span(fold, age)
}

// The years from a year on, to the last of the table.
#[tactic(auto, unfolding(crate::specs::Kinds::years_on))]
fn years_on(year: u64) -> usize
    requires { year ≤ last_years }
    ensures { result ≡ years_on year }
{
    (LAST_YEARS as u64 + 1 - year) as usize
}

// How many years the path has from a year on.
#[tactic(auto, unfolding(crate::specs::Kinds::count_of))]
pub fn count_of(fold: Fold, year: u64, span: usize) -> usize
    requires { year ≤ last_years }
    ensures { result ≡ count_of fold year span }
{
    match fold {
        Fold::Death => 1,
        Fold::Survival => span,
        Fold::Expectancy => years_on(year),
        Fold::Annuity(_) => years_on(year),
    }
}

// The whole years to a term: of a date, from the query's year to its own.
pub fn span_of(rule: Rule, year: i64, term: i64) -> i64
    requires { Under year 9999 × (T rule.dated → T (is_day term)) }
    ensures { result ≡ span_of rule year term }
{
    if !rule.dated {
        return term;
    }
    quote_calendar::date_year(term) as i64 - year
}

// The part of a year after them; a span has none.
pub fn part_of(rule: Rule, term: i64) -> Part
    requires { T rule.dated → T (is_day term) }
    ensures { IsPart result (part_of rule term) }
{
    if !rule.dated {
        return Part { days: 0, whole: 1 };
    }
    Part {
        days: quote_calendar::day_of_year(term),
        whole: quote_calendar::year_days(quote_calendar::date_year(term)),
    }
}

// The units of a figure's step.
#[tactic(auto, unfolding(crate::specs::Kinds::step_of))]
pub fn step_of(fold: Fold) -> u64
    ensures { result ≡ step_of fold }
{
    match fold {
        Fold::Death => PROBABILITY_STEP,
        Fold::Survival => PROBABILITY_STEP,
        Fold::Expectancy => EXPECTANCY_STEP,
        Fold::Annuity(_) => PRICE_STEP,
    }
}

// The units of a figure's step on a grid.
pub fn step_on(grid: GridUnit, fold: Fold) -> u64
    ensures { result ≡ step_of fold * (grid_of grid).scale }
{
    let step = step_of(fold);
    match grid {
        GridUnit::Coarse => step,
        GridUnit::Fine => step * FINE_SCALE,
    }
}

// The decimals that a figure prints.
#[tactic(auto, unfolding(crate::specs::Kinds::decimals_of))]
pub fn decimals_of(fold: Fold) -> usize
    ensures { result ≡ decimals_of fold }
{
    match fold {
        Fold::Death => 5,
        Fold::Survival => 5,
        Fold::Expectancy => 2,
        Fold::Annuity(_) => 1,
    }
}

// The fold over the factors.
#[tactic(auto, unfolding(quote_paths::specs::Values::fold_over))]
pub fn folded(grid: GridUnit, fold: Fold, factors: &[Ends]) -> Ends
    requires { Chances (grid_of grid) factors.now × RateWithin fold }
    ensures { result ≡ fold_over fold (grid_of grid) factors.now }
{
    match fold {
        Fold::Death => model_force::death_of(grid, number_folds::survival_over(grid, factors)),
        Fold::Survival => number_folds::survival_over(grid, factors),
        Fold::Expectancy => number_folds::expectancy_over(grid, factors),
        Fold::Annuity(rate) => number_annuity::annuity_over(grid, factors, rate as u64),
    }
}
