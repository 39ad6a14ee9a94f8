// The tests of an age, a year, a term and a rate against the table: refusals 3 to 5, 8 and 10.
#![tactic(auto)]

ghost use Rattle.std.specs.Prelude.{◌≡◌};
ghost use Rattle.number_whole.specs.code.Sizes.{Under};
ghost use Rattle.set_params.specs.Limits.{last_years};
ghost use Rattle.set_params.specs.code.Within.{StartWithin};
ghost use Rattle.quote_table_tests.specs.TableTests.{between, date_in_table, table_tests, first_failed};

use model_closure::LAST_CLOSED;
use number_annuity::MOST_RATE;
use quote_kinds::Rule;
use set_params::FIRST_YEARS;
use set_refusal::Refusal;

// Whether v is at least low and at most high.
pub fn between(low: i64, high: i64, v: i64) -> bool
    ensures { result ≡ between low high v }
{
    if v < low {
        return false;
    }
    v <= high
}

// Whether a term that is to be a date is a day.
fn date_in_table(rule: Rule, term: i64) -> bool
    ensures { result ≡ date_in_table rule term }
{
    if !rule.dated {
        return true;
    }
    quote_calendar::is_day(term)
}

// The refusal that the table of a start year gives an age, a year, a term and a kind's rate, the first of 3, 4, 10, 5 and 8 that
// applies.
pub fn table_refusal(start: i64, rule: Rule, age: i64, year: i64, term: i64) -> Refusal
    requires { StartWithin start × Under rule.years last_years }
    ensures { result ≡ first_failed (table_tests start rule age year term) }
{
    let fold = rule.fold;
    let first = start + FIRST_YEARS;
    let last = start + rule.years;
    if !between(0, LAST_CLOSED as i64, age) {
        return Refusal::NoSuchAge;
    }
    if !between(first, last, year) {
        return Refusal::NoSuchYear;
    }
    if !date_in_table(rule, term) {
        return Refusal::NoSuchDate;
    }
    let span = quote_kinds::span_of(rule, year, term);
    if !between(
        0,
        quote_kinds::longest_span(rule, age as usize) as i64,
        span,
    ) {
        return Refusal::NoSuchSpan;
    }
    if !between(0, MOST_RATE as i64, quote_kinds::rate_of(fold)) {
        return Refusal::NoSuchRate;
    }
    Refusal::Accepted
}
