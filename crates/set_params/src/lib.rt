// The parameter set of a sheet, and the years of the table.
#![tactic(auto)]

ghost use Rattle.std.specs.Prelude.{◌≡◌, ◌<◌, pos, ◌≤ℤ◌};
ghost use Rattle.set_params.specs.Set.{ages, year_number, blank};
ghost use Rattle.set_params.specs.code.Runs.{four_at};

// The table that a set came from.
#[derive(Clone, Copy)]
pub enum Table {
    Ag2014,
    LiLee,
}

// A label only.
#[derive(Clone, Copy)]
pub enum Sex {
    M,
    F,
}

// Ages 0 to 90 have parameters.
pub const AGES: usize = 91;

// The first and the last start year, and the years from the start to the first year of a quote, to the last one of a survival or
// an expectancy, and to the last one of q.
pub const FIRST_START: i64 = 2013;

pub const LAST_START: i64 = 2033;

pub const FIRST_YEARS: i64 = 1;

pub const QUOTE_YEARS: i64 = 51;

pub const LAST_YEARS: i64 = 171;

// The parameters of one sheet. In the model's letters: level is A, slope is B, period is K in the start year, kappa
// is k.
#[derive(Clone, Copy)]
pub struct Params {
    pub table: Table,
    pub sex: Sex,
    pub start: i64,
    pub a: i64,
    pub theta: i64,
    pub c: i64,
    pub period: i64,
    pub kappa: i64,
    pub level: [i64; AGES],
    pub slope: [i64; AGES],
    pub alpha: [i64; AGES],
    pub beta: [i64; AGES],
}

// What takes the two time series a year on: theta is added to K; kappa is multiplied by a, and c is added to it.
#[derive(Clone, Copy)]
pub struct Dynamics {
    pub a: i64,
    pub theta: i64,
    pub c: i64,
}

// The parameters of one age.
#[derive(Clone, Copy)]
pub struct Age {
    pub level: i64,
    pub slope: i64,
    pub alpha: i64,
    pub beta: i64,
}

// The four parameters of age x, out of the four runs: a loop over ages lends the runs, since a call that takes the set
// copies it.
pub fn age_of_runs<'a>(
    level: &'a [i64; AGES],
    slope: &'a [i64; AGES],
    alpha: &'a [i64; AGES],
    beta: &'a [i64; AGES],
    x: usize,
) -> Age
    requires { x < ages }
    ensures { result ≡ four_at level.now slope.now alpha.now beta.now x }
{
    Age {
        level: level[x],
        slope: slope[x],
        alpha: alpha[x],
        beta: beta[x],
    }
}

// A year, counted from the start.
pub fn year_number(start: i64, year: i64) -> u64
    requires { (pos 0 ≤ℤ start) × (start ≤ℤ year) }
    ensures { result ≡ year_number start year }
{
    (year - start) as u64
}

// Table AG2014, start 2013, sex M and every other number 0.
pub fn blank() -> Params
    ensures { result ≡ blank }
{
    Params {
        table: Table::Ag2014,
        sex: Sex::M,
        start: FIRST_START,
        a: 0,
        theta: 0,
        c: 0,
        period: 0,
        kappa: 0,
        level: [0; AGES],
        slope: [0; AGES],
        alpha: [0; AGES],
        beta: [0; AGES],
    }
}
