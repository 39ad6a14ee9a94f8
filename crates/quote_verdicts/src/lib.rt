// The verdict on a published column of q for one year: right, wrong or open, or one numbered refusal. The cells of the year are
// worked once on the coarse grid, and with them each age's figure and the year's closure; a figure that they leave open is asked of
// its quote.
#![tactic(auto)]

ghost use Rattle.std.specs.Prelude.{◌≡◌, [], ◌<◌, T, length};
ghost use Rattle.text_tokens.specs.Text.{taken};
ghost use Rattle.number_exponential.specs.Units.{billionths};
ghost use Rattle.set_limits.specs.InLimits.{in_limits};
ghost use Rattle.number_folds.specs.code.Code.{AtMost, Chances};
ghost use Rattle.quote.specs.Demand.{shown_of};
ghost use Rattle.quote_verdicts.specs.Verdict.{column_ages, figure_here, entry_at, verdict_to, entries_in, judged};
ghost use Rattle.quote_verdicts.specs.code.Code.{column_read, age_verdict, joined, figure_by, figure_kept, Honest};

use model_closure::LAST_CLOSED;
use number_exact::{Figure, PROBABILITY_STEP};
use number_exponential::{Ends, GridUnit};
use quote_along::Answer;
use quote_kinds::Kind;
use quote_paths::Path;
use set_params::Params;
use set_refusal::Refusal;

// Ages 0 to 120.
pub const COLUMN_AGES: usize = LAST_CLOSED + 1;

// Every entry is the figure here; an entry differs from a printed figure; or a figure is open and none differs.
#[derive(Clone, Copy)]
pub enum Verdict {
    Right,
    Wrong,
    Open,
}

// A verdict, or the refusal.
pub type Judged = Result<Verdict, Refusal>;

// The figure of q by p's ends on the coarse grid.
fn coarse_figure(p: Ends) -> Figure
    requires { AtMost billionths.unit p }
    ensures { result ≡ figure_by p }
{
    let q = model_force::death_of(GridUnit::Coarse, p);
    number_exact::figure_of(PROBABILITY_STEP, q.lower, q.upper)
}

// The verdict on the entry of one age, by its figure.
fn age_verdict(figure: Figure, entry: u64) -> Verdict
    ensures { result ≡ age_verdict (shown_of figure) entry }
{
    let Figure::Printed(n) = figure else {
        return Verdict::Open;
    };
    if n == entry {
        return Verdict::Right;
    }
    Verdict::Wrong
}

// The verdict on the entry of one age, by the quote of its q: an open figure is worked again.
fn verdict_again(p: Params, year: i64, age: usize, entry: u64) -> Verdict
    requires { T (in_limits p) × (age < column_ages) }
    ensures { result ≡ age_verdict (figure_here p year age) entry }
{
    let answer = quote::answer_within(true, p, Kind::Death, age as i64, year, 0);
    let Ok(q) = answer else {
        // without a figure none differs and none is open
        return Verdict::Right;
    };
    let figure = q.figure;
    age_verdict(figure, entry)
}

// The verdict on some ages and one more: wrong goes before open, and open before right.
#[tactic(auto, unfolding(crate::specs::code::Code::joined))]
fn joined(some: Verdict, more: Verdict) -> Verdict
    ensures { result ≡ joined some more }
{
    match (some, more) {
        (Verdict::Wrong, _) | (_, Verdict::Wrong) => Verdict::Wrong,
        (Verdict::Open, _) | (_, Verdict::Open) => Verdict::Open,
        (Verdict::Right, Verdict::Right) => Verdict::Right,
    }
}

// The verdict on a column by the factors of its year's cells, with open figures asked again.
fn verdict_on(p: Params, year: i64, factors: &[Ends], column: &[u64; COLUMN_AGES]) -> Verdict
    requires { T (in_limits p) × Chances billionths factors.now × (length factors.now ≡ column_ages) }
    ensures { result ≡ verdict_to (figure_kept p year factors.now) (entry_at column.now) column_ages }
{
    let mut verdict = Verdict::Right;
    for x in 0..COLUMN_AGES {
        let figure = coarse_figure(factors[x]);
        let more = if number_exact::is_open(figure) {
            verdict_again(p, year, x, column[x])
        } else {
            age_verdict(figure, column[x])
        };
        verdict = joined(verdict, more);
    }
    verdict
}

// What is answered of a column that was read, for a set in its limits.
pub fn judge_within(p: Params, year: i64, column: [u64; COLUMN_AGES]) -> Judged
    requires { T (in_limits p) }
    ensures { result ≡ judged p year (taken column []) }
{
    let rule = quote_kinds::rule_of(Kind::Death);
    let refusal = quote_table_tests::table_refusal(p.start, rule, 0, year, 0);
    if set_refusal::refusal_number(refusal) != 0 {
        return Err(refusal);
    }
    let n = set_params::year_number(p.start, year);
    let cells = Path {
        cohort: false,
        age: 0,
        year: n,
        count: COLUMN_AGES,
    };
    let Some(ends) = quote_factors::factors_of(GridUnit::Coarse, p, cells) else {
        return Err(Refusal::LogForceOutOfRange);
    };
    let verdict = verdict_on(p, year, &ends[..COLUMN_AGES], &column);
    Ok(verdict)
}

// What is answered of any column: none where it is malformed.
pub fn judge(p: Params, year: i64, column: Option<[u64; COLUMN_AGES]>) -> Judged
    ensures answered { result ≡ judged p year (column_read column) }
    ensures honest { Honest p year (entries_in (column_read column)) result }
{
    if !set_limits::in_limits(p) {
        return Err(Refusal::OutOfLimits);
    }
    let Some(entries) = column else {
        return Err(Refusal::MalformedColumn);
    };
    judge_within(p, year, entries)
}
