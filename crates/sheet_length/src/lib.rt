// How many bytes the sheet of a parameter set has, part by part.
#![tactic(auto)]

ghost use Rattle.std.specs.Prelude.{◌≡◌, ◌^◌, ◌<◌, ◌≤◌, T, nat_abs, length};
ghost use Rattle.text_tokens.specs.Number.{most_digits};
ghost use Rattle.set_params.specs.Set.{ages};
ghost use Rattle.set_limits.specs.InLimits.{in_limits};
ghost use Rattle.set_params.specs.code.Within.{AgeWithin};
ghost use Rattle.sheet.specs.Sheet.{table_text, sheet_text};
ghost use Rattle.sheet_length.specs.code.Parts.{line_length, series_text, start_text, age_text};

use set_params::{AGES, Age, Params, Table};

// The bytes of a sheet's second line.
const SEX_BYTES: usize = 6;

// How many bytes a line has, by how many its key has: at most 23.
fn line_len(key: usize, v: i64) -> usize
    requires { (key ≤ 5) × (nat_abs v < 10 ^ most_digits) }
    ensures { (result ≡ line_length key v) × (result ≤ 23) }
{
    key + text_printing::number_len(v) + 2
}

// How many bytes the first line has.
fn table_len(table: Table) -> usize
    ensures { result ≡ length (table_text table) }
{
    match table {
        Table::Ag2014 => 13,
        Table::LiLee => 12,
    }
}

// How many bytes the lines of the series have.
fn series_len(p: Params) -> usize
    requires { T (in_limits p) }
    ensures { result ≡ length (series_text p) }
{
    line_len(1, p.a) + line_len(5, p.theta) + line_len(1, p.period) + line_len(1, p.kappa)
}

// How many bytes the lines of the start and c have.
fn start_len(table: Table, start: i64, c: i64) -> usize
    requires { (nat_abs start < 10 ^ most_digits) × (nat_abs c < 10 ^ most_digits) }
    ensures { result ≡ length (start_text table start c) }
{
    match table {
        Table::Ag2014 => 0,
        Table::LiLee => line_len(5, start) + line_len(1, c),
    }
}

// How many bytes the four lines of age x have.
fn age_len(a: Age, x: usize) -> usize
    requires { AgeWithin a × (x < ages) }
    ensures { result ≡ length (age_text a x) }
{
    let digits = if x < 10 { 1 } else { 2 };
    let first = line_len(2 + digits, a.level) + line_len(2 + digits, a.slope);
    first + line_len(3 + digits, a.alpha) + line_len(3 + digits, a.beta)
}

// How many bytes the sheet has.
pub fn sheet_len(p: Params) -> usize
    requires { T (in_limits p) }
    ensures { result ≡ length (sheet_text p) }
{
    let table = p.table;
    let mut len = table_len(table) + SEX_BYTES + series_len(p) + start_len(table, p.start, p.c);
    for x in 0..AGES {
        let age = set_params::age_of_runs(&p.level, &p.slope, &p.alpha, &p.beta, x);
        len += age_len(age, x);
    }
    len
}
