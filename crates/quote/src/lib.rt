// Quotes of all kinds: any set, kind, age, year and term, a span or a date, give the two ends of the figure with the figure itself, or one
// numbered refusal.
#![tactic(auto)]

ghost use Rattle.std.specs.Prelude.{◌≡◌, T};
ghost use Rattle.set_limits.specs.InLimits.{in_limits};
ghost use Rattle.set_params.specs.code.Within.{StartWithin};
ghost use Rattle.set_refusal.specs.declared.Refusal.TheVariants.{Accepted};
ghost use Rattle.quote_kinds.specs.Kinds.{rule_of};
ghost use Rattle.quote_table_tests.specs.TableTests.{first_failed, table_tests};
ghost use Rattle.quote.specs.Quote.{answer_of};
ghost use Rattle.quote.specs.code.Code.{path_to, answer_for};
ghost use Rattle.quote.specs.Demand.{Demand3};

use quote_along::Answer;
use quote_kinds::Kind;
use quote_paths::Path;
use set_params::Params;
use set_refusal::Refusal;

// The path of a query in the table, to the last whole year of its term.
pub fn path_to(start: i64, kind: Kind, age: i64, year: i64, term: i64) -> Path
    requires { StartWithin start × (first_failed (table_tests start (rule_of kind) age year term) ≡ Accepted) }
    ensures { result ≡ path_to start kind age year term }
{
    let rule = quote_kinds::rule_of(kind);
    let fold = rule.fold;
    let n = set_params::year_number(start, year);
    let span = quote_kinds::span_of(rule, year, term);
    Path {
        cohort: rule.cohort,
        age: age as usize,
        year: n,
        count: quote_kinds::count_of(fold, n, span as usize),
    }
}

// The answer to a query of a set in its limits, by its coarse ends alone or, again, with an open figure worked on the fine grid.
pub fn answer_within(again: bool, p: Params, kind: Kind, age: i64, year: i64, term: i64) -> Answer
    requires { T (in_limits p) }
    ensures { result ≡ answer_for again p kind age year term }
{
    let rule = quote_kinds::rule_of(kind);
    let refusal = quote_table_tests::table_refusal(p.start, rule, age, year, term);
    if set_refusal::refusal_number(refusal) != 0 {
        return Err(refusal);
    }
    let fold = rule.fold;
    let path = path_to(p.start, kind, age, year, term);
    quote_along::quote_along(again, p, fold, path, quote_kinds::part_of(rule, term))
}

// The answer to any query.
pub fn quote_of(p: Params, kind: Kind, age: i64, year: i64, term: i64) -> Answer
    ensures answered { result ≡ answer_of p kind age year term }
    ensures honest { Demand3 p kind age year term result }
{
    if !set_limits::in_limits(p) {
        return Err(Refusal::OutOfLimits);
    }
    answer_within(true, p, kind, age, year, term)
}
