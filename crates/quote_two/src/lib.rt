// Two quotes, whichever their sets, kinds, ages, years, terms and rates: whether they are of one kind and, if so, whether their
// figures are equal, and so whether their exact values round to one step. Proved from the contract of `quote_of` alone.
#![tactic(auto)]

ghost use Rattle.std.specs.Prelude.{◌≡◌};
ghost use Rattle.quote_kinds.specs.Kinds.{OneKind};
ghost use Rattle.quote.specs.Demand.{shown_of, figure_shown};
ghost use Rattle.quote_two.specs.Claim.{Settled};
ghost use Rattle.quote_two.specs.code.Code.{kind_number, one_kind, steps_shown};

use number_exact::Figure;
use quote_along::Answer;
use quote_kinds::Kind;
use set_params::Params;

// Two figures compared, where they are of one kind and both are printed.
#[derive(Clone, Copy)]
pub enum Same {
    OtherKind,
    NotPrinted,
    Equal,
    Different,
}

// A number for each kind, whatever the rate. A derived `==` would compare the rates too, and a match on two kinds names each
// kind twice.
fn kind_number(kind: Kind) -> u64
    ensures { result ≡ kind_number kind }
{
    match kind {
        Kind::Death => 0,
        Kind::CohortSurvival => 1,
        Kind::PeriodSurvival => 2,
        Kind::CohortExpectancy => 3,
        Kind::PeriodExpectancy => 4,
        Kind::CohortAnnuity(_) => 5,
        Kind::PeriodAnnuity(_) => 6,
        Kind::Day => 7,
    }
}

// Whether two kinds are one, rates aside.
pub fn one_kind(kind: Kind, kind2: Kind) -> bool
    ensures { result ≡ one_kind kind kind2 }
{
    kind_number(kind) == kind_number(kind2)
}

// The steps of a figure that is printed.
fn figure_steps(figure: Figure) -> Option<u64>
    ensures { result ≡ steps_shown (shown_of figure) }
{
    match figure {
        Figure::Printed(n) => Some(n),
        Figure::Open => None,
    }
}

// The steps of an answer whose figure is printed.
fn steps_of(answer: Answer) -> Option<u64>
    ensures { result ≡ steps_shown (figure_shown answer) }
{
    let Ok(quote) = answer else {
        return None;
    };
    figure_steps(quote.figure)
}

// Compares the figures of two quotes of one kind.
fn same_printed(
    p: Params,
    kind: Kind,
    age: i64,
    year: i64,
    term: i64,
    p2: Params,
    kind2: Kind,
    age2: i64,
    year2: i64,
    term2: i64,
) -> Same
    requires { OneKind kind kind2 }
    ensures { Settled p kind age year term p2 kind2 age2 year2 term2 result }
{
    let first = steps_of(quote::quote_of(p, kind, age, year, term));
    let second = steps_of(quote::quote_of(p2, kind2, age2, year2, term2));
    let Some(n) = first else {
        return Same::NotPrinted;
    };
    let Some(m) = second else {
        return Same::NotPrinted;
    };
    if n == m {
        return Same::Equal;
    }
    Same::Different
}

// Compares the figures of any two quotes.
pub fn same_figures(
    p: Params,
    kind: Kind,
    age: i64,
    year: i64,
    term: i64,
    p2: Params,
    kind2: Kind,
    age2: i64,
    year2: i64,
    term2: i64,
) -> Same
    ensures { Settled p kind age year term p2 kind2 age2 year2 term2 result }
{
    if one_kind(kind, kind2) {
        return same_printed(p, kind, age, year, term, p2, kind2, age2, year2, term2);
    }
    Same::OtherKind
}
