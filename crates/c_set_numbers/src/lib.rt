// A parameter set as a list of numbers: a sheet read into such a list, and such a list written as a sheet.
#![tactic(auto)]

ghost use Rattle.std.specs.Prelude.{◌≡◌, ◌+◌, ◌≤◌, ◌<◌, [], ◌∷◌, length, drop};
ghost use Rattle.set_refusal.specs.Refusals.{refusal_number};
ghost use Rattle.sheet.specs.Sheet.{run_from};
ghost use Rattle.c_set_numbers.specs.SetNumbers.{set_length, table_number, sex_number, is_label, table_of, sex_of, are_set};
ghost use Rattle.c_set_numbers.specs.SetNumbers.{set_of, set_over, read_no, numbers_after, write_no};
ghost use Rattle.c_set_numbers.specs.code.Code.{over, told_length};
ghost use Rattle.c_set_numbers.specs.SetNumbers.{buffer_after, length_after};

use set_params::{AGES, Params, Sex, Table};
use set_refusal::Refusal;
use sheet::Written;

// The table, the sex, a, theta, K, k, the start and c.
const BEFORE_AGES: usize = 8;

// These, and four numbers for each age.
const SET_LENGTH: usize = BEFORE_AGES + 4 * AGES;

// 0 for AG2014 and 1 for LILEE.
fn table_number(table: Table) -> i64
    ensures { result ≡ table_number table }
{
    match table {
        Table::Ag2014 => 0,
        Table::LiLee => 1,
    }
}

// 0 for M and 1 for F.
fn sex_number(sex: Sex) -> i64
    ensures { result ≡ sex_number sex }
{
    match sex {
        Sex::M => 0,
        Sex::F => 1,
    }
}

// Puts four numbers from a place on.
fn put_four(values: &mut [i64], at: usize, first: i64, second: i64, third: i64, fourth: i64)
    requires { at + 4 ≤ length values.old }
    ensures { values.new ≡ over values.old at (first ∷ second ∷ third ∷ fourth ∷ []) }
{
    values[at] = first;
    values[at + 1] = second;
    values[at + 2] = third;
    values[at + 3] = fourth;
}

// Puts a set's numbers into the first places.
fn put_set(values: &mut [i64], p: Params)
    requires { set_length ≤ length values.old }
    ensures { values.new ≡ set_over p values.old }
{
    let table = p.table;
    let sex = p.sex;
    put_four(
        values,
        0,
        table_number(table),
        sex_number(sex),
        p.a,
        p.theta,
    );
    put_four(values, 4, p.period, p.kappa, p.start, p.c);
    for x in 0..AGES {
        let age = set_params::age_of_runs(&p.level, &p.slope, &p.alpha, &p.beta, x);
        put_four(
            values,
            BEFORE_AGES + 4 * x,
            age.level,
            age.slope,
            age.alpha,
            age.beta,
        );
    }
}

// Reads a sheet into the first 372 numbers: the table, the sex, a, theta, K, k, the start and c, and then A, B, alpha and beta of
// each age. The refusal's number, or 0; refused, the call leaves every number as it was.
pub fn read_into(sheet: &[u8], values: &mut [i64]) -> u8
    ensures value { result ≡ read_no sheet.now (length values.old) }
    ensures values_after { values.new ≡ numbers_after sheet.now values.old }
{
    let got = sheet_reader::read(sheet);
    let refusal = got.refusal;
    let set = got.set;
    let number = set_refusal::refusal_number(refusal);
    if number != 0 {
        return number;
    }
    if values.len() < SET_LENGTH {
        return set_refusal::refusal_number(Refusal::BufferTooShort);
    }
    put_set(values, set);
    number
}

// Whether a number is 0 or 1.
fn is_label(v: i64) -> bool
    ensures { result ≡ is_label v }
{
    v == 0 || v == 1
}

// Whether these numbers are a set's.
fn are_set(values: &[i64]) -> bool
    ensures { result ≡ are_set values.now }
{
    values.len() == SET_LENGTH && is_label(values[0]) && is_label(values[1])
}

// The table of a number.
fn table_of(label: i64) -> Table
    ensures { result ≡ table_of label }
{
    if label == 0 {
        return Table::Ag2014;
    }
    Table::LiLee
}

// The sex of a number.
fn sex_of(label: i64) -> Sex
    ensures { result ≡ sex_of label }
{
    if label == 0 {
        return Sex::M;
    }
    Sex::F
}

// A run of parameters: of the numbers after the sex, from a place on, every fourth.
fn run(values: &[i64], from: usize) -> [i64; AGES]
    requires { (length values.now ≡ set_length) × (from < 10) }
    ensures { result ≡ run_from from (drop 2 values.now) }
{
    let mut out = [0i64; AGES];
    for (age, value) in out.iter_mut().enumerate() {
        *value = values[2 + from + 4 * age];
    }
    out
}

// The set of its numbers.
fn set_of(values: &[i64]) -> Params
    requires { length values.now ≡ set_length }
    ensures { result ≡ set_of values.now }
{
    let table = table_of(values[0]);
    let sex = sex_of(values[1]);
    let level = run(values, 6);
    let slope = run(values, 7);
    let alpha = run(values, 8);
    let beta = run(values, 9);
    Params {
        table,
        sex,
        start: values[6],
        a: values[2],
        theta: values[3],
        c: values[7],
        period: values[4],
        kappa: values[5],
        level,
        slope,
        alpha,
        beta,
    }
}

// The number of a writer's answer, with its length told where it is accepted.
pub fn tell(got: Written, len: &mut u64) -> u8
    ensures value { result ≡ refusal_number got.refusal }
    ensures len_after { len.new ≡ told_length got len.old }
{
    let refusal = got.refusal;
    let number = set_refusal::refusal_number(refusal);
    if number == 0 {
        *len = got.len as u64;
    }
    number
}

// Writes the sheet of a set's 372 numbers into the buffer, and its length. The refusal's number, or 0; refused, the call
// leaves every byte and the length as they were.
pub fn write_from(values: &[i64], buffer: &mut [u8], len: &mut u64) -> u8
    ensures value { result ≡ write_no values.now (length buffer.old) }
    ensures buffer_after { buffer.new ≡ buffer_after values.now buffer.old }
    ensures len_after { len.new ≡ length_after values.now (length buffer.old) len.old }
{
    if !are_set(values) {
        return set_refusal::refusal_number(Refusal::Malformed);
    }
    tell(sheet_writer::write(set_of(values), buffer), len)
}
