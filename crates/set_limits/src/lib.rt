// Whether a parameter set is in its limits: its start and c by its table, the sizes of the series, of each age and of kappa in
// every year, and the whole.
#![tactic(auto)]

ghost use Rattle.std.specs.Prelude.{◌≡◌, pos};
ghost use Rattle.set_params.specs.Limits.{within};
ghost use Rattle.set_params.specs.code.Within.{DynamicsWithin};
ghost use Rattle.set_limits.specs.InLimits.{last_start_of, constant_limit_of, table_in_limits, age_in_limits, series_in_limits};
ghost use Rattle.set_limits.specs.InLimits.{ends_in_limits, kappa_in_limits, in_limits};

use number_exponential::GridUnit;
use number_whole::SignedEnds;
use set_params::{AGES, Age, Dynamics, FIRST_START, LAST_START, LAST_YEARS, Params, Table};

// The largest sizes either side of zero.
const LEVEL_LIMIT: u64 = 40_000_000_000;

const SLOPE_LIMIT: u64 = 10_000_000;

const A_LIMIT: u64 = 100_000_000;

const THETA_LIMIT: u64 = 10_000_000_000;

const PERIOD_LIMIT: u64 = 500_000_000_000;

const KAPPA_LIMIT: u64 = 50_000_000_000;

const CONSTANT_LIMIT: u64 = 10_000_000_000;

// The years from the start to the last of q.
const KAPPA_YEARS: u64 = 172;

// v is at most the limit either side of zero.
fn within(v: i64, limit: u64) -> bool
    ensures { result ≡ within limit v }
{
    v.unsigned_abs() <= limit
}

// The last start of a table.
#[tactic(auto, unfolding(crate::specs::InLimits::last_start_of))]
fn last_start(table: Table) -> i64
    ensures { result ≡ pos (last_start_of table) }
{
    match table {
        Table::Ag2014 => FIRST_START,
        Table::LiLee => LAST_START,
    }
}

// The largest c of a table.
#[tactic(auto, unfolding(crate::specs::InLimits::constant_limit_of))]
fn constant_limit(table: Table) -> u64
    ensures { result ≡ constant_limit_of table }
{
    match table {
        Table::Ag2014 => 0,
        Table::LiLee => CONSTANT_LIMIT,
    }
}

// The start and c are in the limits of their table.
#[tactic(auto, unfolding(crate::specs::InLimits::table_in_limits))]
fn table_in_limits(table: Table, start: i64, c: i64) -> bool
    ensures { result ≡ table_in_limits table start c }
{
    FIRST_START <= start && start <= last_start(table) && within(c, constant_limit(table))
}

// The four parameters of an age are in limits.
fn age_in_limits(a: Age) -> bool
    ensures { result ≡ age_in_limits a }
{
    within(a.level, LEVEL_LIMIT)
        && within(a.slope, SLOPE_LIMIT)
        && within(a.alpha, LEVEL_LIMIT)
        && within(a.beta, SLOPE_LIMIT)
}

// a, theta, K, K + 171·theta and k are in limits. The sum is formed where its terms are.
fn series_in_limits(p: Params) -> bool
    ensures { result ≡ series_in_limits p }
{
    within(p.a, A_LIMIT)
        && within(p.theta, THETA_LIMIT)
        && within(p.period, PERIOD_LIMIT)
        && within(p.period + LAST_YEARS * p.theta, PERIOD_LIMIT)
        && within(p.kappa, KAPPA_LIMIT)
}

// Both ends of kappa are within its limit.
#[tactic(auto, unfolding(crate::specs::InLimits::ends_in_limits))]
fn ends_in_limits(e: SignedEnds) -> bool
    ensures { result ≡ ends_in_limits e }
{
    within(e.lower, KAPPA_LIMIT) && within(e.upper, KAPPA_LIMIT)
}

// Kappa is within its limit in every year, by its value in the start year.
fn kappa_in_limits(d: Dynamics, start: i64) -> bool
    requires { DynamicsWithin d }
    ensures { result ≡ kappa_in_limits d start }
{
    let mut e = SignedEnds {
        lower: start,
        upper: start,
    };
    for _year in 0..KAPPA_YEARS {
        if !ends_in_limits(e) {
            return false;
        }
        e = set_series::kappa_step(GridUnit::Coarse, d, e);
    }
    true
}

// The whole set is in limits, whatever its numbers. With nothing added kappa stays within its limit, so that a set of AG2014
// needs no walk.
pub fn in_limits(p: Params) -> bool
    ensures { result ≡ in_limits p }
{
    let table = p.table;
    if !table_in_limits(table, p.start, p.c) || !series_in_limits(p) {
        return false;
    }
    for x in 0..AGES {
        let age = set_params::age_of_runs(&p.level, &p.slope, &p.alpha, &p.beta, x);
        if !age_in_limits(age) {
            return false;
        }
    }
    match table {
        Table::Ag2014 => true,
        Table::LiLee => kappa_in_limits(
            Dynamics {
                a: p.a,
                theta: p.theta,
                c: p.c,
            },
            p.kappa,
        ),
    }
}
