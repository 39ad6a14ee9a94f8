// The year a target is reached: any set, age and target give the first quote year whose period expectancy reaches it, or tell that
// the ends leave it open, that none does, or one numbered refusal.
#![tactic(auto)]

ghost use Rattle.std.specs.Prelude.{◌≡◌, T};
ghost use Rattle.set_limits.specs.InLimits.{in_limits};
ghost use Rattle.quote_target.specs.Target.{reaches, year_tells, target_answer};
ghost use Rattle.quote_target.specs.Target.{Honest};

use model_closure::LAST_CLOSED;
use number_exponential::Ends;
use quote_along::Answer;
use quote_kinds::Kind;
use set_params::{Params, QUOTE_YEARS};
use set_refusal::Refusal;

// The year in which a target is reached, open, or never among the quote years.
#[derive(Clone, Copy)]
pub enum TargetYear {
    Reached(i64),
    Open,
    Never,
}

// What a year tells of a target, or the refusal.
pub type TargetAnswer = Result<TargetYear, Refusal>;

// Whether an end is at or above the target.
fn reaches(target: i64, end: u64) -> bool
    ensures { result ≡ reaches target end }
{
    if target < 0 {
        return true;
    }
    target as u64 <= end
}

// What a year tells by its ends, or else the later years.
fn year_tells(target: i64, e: Ends, year: i64, later: TargetYear) -> TargetYear
    ensures { result ≡ year_tells target e year later }
{
    if !reaches(target, e.upper) {
        return later;
    }
    if !reaches(target, e.lower) {
        return TargetYear::Open;
    }
    TargetYear::Reached(year)
}

// The answer for a set in its limits, by coarse ends: from the last quote year back to the first, so that every year is looked at.
pub fn target_within(p: Params, age: i64, target: i64) -> TargetAnswer
    requires { T (in_limits p) }
    ensures { result ≡ target_answer p age target }
{
    if !quote_table_tests::between(0, LAST_CLOSED as i64, age) {
        return Err(Refusal::NoSuchAge);
    }
    let mut found = TargetYear::Never;
    for n in (1..=QUOTE_YEARS as u64).rev() {
        let year = p.start + n as i64;
        let answer = quote::answer_within(false, p, Kind::PeriodExpectancy, age, year, 0);
        let Ok(q) = answer else {
            return Err(Refusal::LogForceOutOfRange);
        };
        let e = Ends {
            lower: q.lower,
            upper: q.upper,
        };
        found = year_tells(target, e, year, found);
    }
    Ok(found)
}

// The answer for any set, age and target.
pub fn target_of(p: Params, age: i64, target: i64) -> TargetAnswer
    ensures answered { result ≡ target_answer p age target }
    ensures honest { Honest p age target result }
{
    if !set_limits::in_limits(p) {
        return Err(Refusal::OutOfLimits);
    }
    target_within(p, age, target)
}
