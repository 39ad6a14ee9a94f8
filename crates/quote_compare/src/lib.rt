// Two quotes side by side: their figures, and what their ends tell of their exact values, in the finer of their units. The
// first is below the second or above it, with the least and the most between them, or near, with the most that they can
// differ by.
#![tactic(auto)]

ghost use Rattle.std.specs.Prelude.{◌≡◌};
ghost use Rattle.number_exponential.specs.Units.{grid_of};
ghost use Rattle.quote.specs.Quote.{answer_of};
ghost use Rattle.quote_compare.specs.Compare.{excess, values_of, finer, ends_in, pair_of, comparison_of};
ghost use Rattle.quote_compare.specs.code.Sizes.{SmallQuote, SmallAnswer};

use number_exact::Figure;
use number_exponential::{Ends, FINE_SCALE, GridUnit};
use quote_along::{Answer, Quote};
use quote_kinds::Kind;
use set_params::Params;
use set_refusal::Refusal;

// By how many units the one value exceeds the other: at least, and at most.
#[derive(Clone, Copy)]
pub struct Excess {
    pub least: u64,
    pub most: u64,
}

// The first value against the second: below or above, by so much; or near, with the most that they can differ by in units.
#[derive(Clone, Copy)]
pub enum Values {
    Below(Excess),
    Above(Excess),
    Near(u64),
}

// Two quotes compared: the two figures, and the values with their unit.
#[derive(Clone, Copy)]
pub struct Pair {
    pub first: Figure,
    pub second: Figure,
    pub values: Values,
    pub unit: GridUnit,
}

// Two answers compared, or the refusal of one.
pub type Comparison = Result<Pair, Refusal>;

// By how much a value between the second ends exceeds one between the first.
fn excess_of(a: Ends, b: Ends) -> Excess
    ensures { result ≡ excess a b }
{
    let least = b.lower.saturating_sub(a.upper);
    let most = b.upper.saturating_sub(a.lower);
    Excess { least, most }
}

// The values between two pairs of ends.
fn values_of(a: Ends, b: Ends) -> Values
    ensures { result ≡ values_of a b }
{
    if a.upper < b.lower {
        return Values::Below(excess_of(a, b));
    }
    if b.upper < a.lower {
        return Values::Above(excess_of(b, a));
    }
    let over = a.upper - b.lower;
    let under = b.upper - a.lower;
    Values::Near(over.max(under))
}

// The finer of two units.
fn finer_of(a: GridUnit, b: GridUnit) -> GridUnit
    ensures { result ≡ finer a b }
{
    match a {
        GridUnit::Coarse => b,
        GridUnit::Fine => GridUnit::Fine,
    }
}

// How many of a unit are in 10^-9.
fn scale_of(unit: GridUnit) -> u64
    ensures { result ≡ (grid_of unit).scale }
{
    match unit {
        GridUnit::Coarse => 1,
        GridUnit::Fine => FINE_SCALE,
    }
}

// The ends of a quote in a unit.
fn ends_in(unit: GridUnit, quote: Quote) -> Ends
    requires { SmallQuote quote }
    ensures { result ≡ ends_in unit quote }
{
    let own = quote.unit;
    let scale = scale_of(unit);
    let times = scale / scale_of(own);
    let lower = quote.lower * times;
    let upper = quote.upper * times;
    Ends { lower, upper }
}

// Compares two quotes.
fn pair_of(a: Quote, b: Quote) -> Pair
    requires { SmallQuote a × SmallQuote b }
    ensures { result ≡ pair_of a b }
{
    let first = a.figure;
    let second = b.figure;
    let own = a.unit;
    let other = b.unit;
    let unit = finer_of(own, other);
    let values = values_of(ends_in(unit, a), ends_in(unit, b));
    Pair {
        first,
        second,
        values,
        unit,
    }
}

// Compares two answers whose ends are as small as those of any query; a refusal is the first's or, if it has none, the second's.
pub fn compare(a: Answer, b: Answer) -> Comparison
    requires { SmallAnswer a × SmallAnswer b }
    ensures { result ≡ comparison_of a b }
{
    let first = a?;
    let second = b?;
    Ok(pair_of(first, second))
}

// Compares any two queries.
pub fn compare_of(
    p: Params,
    kind: Kind,
    age: i64,
    year: i64,
    term: i64,
    p2: Params,
    kind2: Kind,
    age2: i64,
    year2: i64,
    term2: i64,
) -> Comparison
    ensures { result ≡ comparison_of (answer_of p kind age year term) (answer_of p2 kind2 age2 year2 term2) }
{
    let first = quote::quote_of(p, kind, age, year, term);
    let second = quote::quote_of(p2, kind2, age2, year2, term2);
    compare(first, second)
}
