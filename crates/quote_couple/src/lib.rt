// Quotes of couples: any two sets, kind, ages, year and span give the two ends of the figure with the figure itself, or one numbered
// refusal. A figure that the coarse ends leave open is worked again on the fine grid.
#![tactic(auto)]

ghost use Rattle.std.specs.Prelude.{◌≡◌, T};
ghost use Rattle.number_whole.specs.code.Sizes.{Under};
ghost use Rattle.set_limits.specs.InLimits.{in_limits};
ghost use Rattle.set_params.specs.Limits.{last_years};
ghost use Rattle.set_params.specs.code.Within.{StartWithin};
ghost use Rattle.quote_walks.specs.code.Code.{PathWithin, path_is};
ghost use Rattle.quote_table_tests.specs.TableTests.{first_failed};
ghost use Rattle.quote_couple.specs.Couple.{couple_table, couple_answer, CoupleDemand3};
ghost use Rattle.quote_couple.specs.code.Code.{paths_answer, paths_quote, Plain};

use number_exponential::GridUnit;
use quote_along::{Answer, Quote};
use quote_couple_kinds::CoupleKind;
use quote_kinds::Rule;
use quote_paths::Path;
use set_params::Params;
use set_refusal::Refusal;

// The refusal that the table of a start year gives two ages, a year and a span, the first of 3, 4 and 5 that applies to either.
fn table_refusal(start: i64, rule: Rule, age: i64, other: i64, year: i64, span: i64) -> Refusal
    requires { StartWithin start × Under rule.years last_years × Plain rule }
    ensures { result ≡ first_failed (couple_table start rule age other year span) }
{
    let one = quote_table_tests::table_refusal(start, rule, age, year, span);
    let two = quote_table_tests::table_refusal(start, rule, other, year, span);
    set_refusal::lower_refusal(one, two)
}

// The quote along the paths of the two lives on one grid, or the refusal of a cell that is out of range there.
fn answer_on(
    grid: GridUnit,
    first: Params,
    second: Params,
    kind: CoupleKind,
    path: Path,
    other: Path,
) -> Answer
    requires { PathWithin first path × PathWithin second other × (path.count ≡ other.count) }
    ensures { result ≡ paths_answer grid first second kind (path_is path) (path_is other) }
{
    let Some(one) = quote_factors::factors_of(grid, first, path) else {
        return Err(Refusal::LogForceOutOfRange);
    };
    let Some(two) = quote_factors::factors_of(grid, second, other) else {
        return Err(Refusal::LogForceOutOfRange);
    };
    let count = path.count;
    let e = quote_two_lives::couple_over(grid, kind, &one[..count], &two[..count]);
    let rule = quote_kinds::rule_of(quote_couple_kinds::single_of(kind));
    let fold = rule.fold;
    let figure = number_exact::figure_of(quote_kinds::step_on(grid, fold), e.lower, e.upper);
    Ok(Quote {
        unit: grid,
        lower: e.lower,
        upper: e.upper,
        figure,
    })
}

// The quote along the paths of the two lives, worked again on the fine grid where its figure is open.
fn couple_along(first: Params, second: Params, kind: CoupleKind, path: Path, other: Path) -> Answer
    requires { PathWithin first path × PathWithin second other × (path.count ≡ other.count) }
    ensures { result ≡ paths_quote first second kind (path_is path) (path_is other) }
{
    let mut grid = GridUnit::Coarse;
    'round: loop {
        let answer = answer_on(grid, first, second, kind, path, other);
        match grid {
            GridUnit::Coarse if quote_along::is_left_open(true, answer) => grid = GridUnit::Fine,
            _ => return answer,
        }
    }
}

// The answer to a query of two lives, each with a set in its limits.
pub fn couple_within(
    first: Params,
    second: Params,
    kind: CoupleKind,
    age: i64,
    other: i64,
    year: i64,
    span: i64,
) -> Answer
    requires { T (in_limits first) × T (in_limits second) }
    ensures { result ≡ couple_answer first second kind age other year span }
{
    if first.start != second.start {
        return Err(Refusal::StartsDiffer);
    }
    let single = quote_couple_kinds::single_of(kind);
    let rule = quote_kinds::rule_of(single);
    let refusal = table_refusal(first.start, rule, age, other, year, span);
    if set_refusal::refusal_number(refusal) != 0 {
        return Err(refusal);
    }
    let path = quote::path_to(first.start, single, age, year, span);
    let apart = quote::path_to(second.start, single, other, year, span);
    couple_along(first, second, kind, path, apart)
}

// The answer to any query of two lives.
pub fn couple_of(
    first: Params,
    second: Params,
    kind: CoupleKind,
    age: i64,
    other: i64,
    year: i64,
    span: i64,
) -> Answer
    ensures answered { result ≡ couple_answer first second kind age other year span }
    ensures honest { CoupleDemand3 first second kind age other year span result }
{
    if !set_limits::in_limits(first) {
        return Err(Refusal::OutOfLimits);
    }
    if !set_limits::in_limits(second) {
        return Err(Refusal::OutOfLimits);
    }
    couple_within(first, second, kind, age, other, year, span)
}
