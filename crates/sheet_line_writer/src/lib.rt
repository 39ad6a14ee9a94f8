// Writes the lines of a sheet into a buffer that the caller lends: the first, the second, those of the series, of the start and c,
// or of one age.
#![tactic(auto)]

ghost use Rattle.std.specs.Prelude.{◌≡◌, ◌++◌, ◌^◌, ◌<◌, pos, nat_abs, T};
ghost use Rattle.text_tokens.specs.Number.{most_digits, unsigned_text};
ghost use Rattle.set_params.specs.Set.{ages};
ghost use Rattle.sheet.specs.Sheet.{line_text, table_text, sex_text};
ghost use Rattle.text_printing.specs.code.Put.{Room, Put};
ghost use Rattle.set_limits.specs.InLimits.{in_limits};
ghost use Rattle.set_params.specs.code.Within.{AgeWithin};
ghost use Rattle.sheet_length.specs.code.Parts.{series_text, start_text, age_text};
ghost use Rattle.sheet_line_writer.specs.code.Value.{value_text};

use set_params::{Age, Params, Sex, Table};

// Writes the first line; the place after it.
pub fn put_table(buffer: &mut [u8], table: Table) -> usize
    requires { Room buffer.old 0 (table_text table) }
    ensures { Put buffer.old 0 (table_text table) buffer.new result }
{
    match table {
        Table::Ag2014 => text_printing::put_text(buffer, 0, b"table=AG2014\n"),
        Table::LiLee => text_printing::put_text(buffer, 0, b"table=LILEE\n"),
    }
}

// Writes the second line; the place after it.
pub fn put_sex(buffer: &mut [u8], at: usize, sex: Sex) -> usize
    requires { Room buffer.old at (sex_text sex) }
    ensures { Put buffer.old at (sex_text sex) buffer.new result }
{
    match sex {
        Sex::M => text_printing::put_text(buffer, at, b"sex=M\n"),
        Sex::F => text_printing::put_text(buffer, at, b"sex=F\n"),
    }
}

// An age as a number to write.
fn age_number(x: usize) -> i64
    requires { x < ages }
    ensures { result ≡ pos x }
{
    x as i64
}

// Writes what follows a line's key; the place after it.
fn put_value(buffer: &mut [u8], at: usize, v: i64) -> usize
    requires { (nat_abs v < 10 ^ most_digits) × Room buffer.old at (value_text v) }
    ensures { Put buffer.old at (value_text v) buffer.new result }
{
    let number = text_printing::put_text(buffer, at, b"=");
    let end = text_printing::put_number(buffer, number, v);
    text_printing::put_text(buffer, end, b"\n")
}

// Writes a line; the place after it.
fn put_line(buffer: &mut [u8], at: usize, key: &[u8], v: i64) -> usize
    requires { (nat_abs v < 10 ^ most_digits) × Room buffer.old at (line_text key.now v) }
    ensures { Put buffer.old at (line_text key.now v) buffer.new result }
{
    let value = text_printing::put_text(buffer, at, key);
    put_value(buffer, value, v)
}

// Writes a line of age x; the place after it.
fn put_age_line(buffer: &mut [u8], at: usize, run: &[u8], x: usize, v: i64) -> usize
    requires { (x < ages) × (nat_abs v < 10 ^ most_digits) × Room buffer.old at (line_text (run.now ++ unsigned_text x) v) }
    ensures { Put buffer.old at (line_text (run.now ++ unsigned_text x) v) buffer.new result }
{
    let number = age_number(x);
    let age = text_printing::put_text(buffer, at, run);
    let value = text_printing::put_number(buffer, age, number);
    put_value(buffer, value, v)
}

// Writes the lines of the series; the place after them.
pub fn put_series(buffer: &mut [u8], at: usize, p: Params) -> usize
    requires { T (in_limits p) × Room buffer.old at (series_text p) }
    ensures { Put buffer.old at (series_text p) buffer.new result }
{
    let theta = put_line(buffer, at, b"a", p.a);
    let period = put_line(buffer, theta, b"theta", p.theta);
    let kappa = put_line(buffer, period, b"K", p.period);
    put_line(buffer, kappa, b"k", p.kappa)
}

// Writes the lines of the start and c, which only a sheet of LILEE has; the place after them.
pub fn put_start(buffer: &mut [u8], at: usize, table: Table, start: i64, c: i64) -> usize
    requires { (nat_abs start < 10 ^ most_digits) × (nat_abs c < 10 ^ most_digits) × Room buffer.old at (start_text table start c) }
    ensures { Put buffer.old at (start_text table start c) buffer.new result }
{
    match table {
        Table::Ag2014 => at,
        Table::LiLee => {
            let constant = put_line(buffer, at, b"start", start);
            put_line(buffer, constant, b"c", c)
        }
    }
}

// Writes the four lines of age x; the place after them.
pub fn put_age(buffer: &mut [u8], at: usize, a: Age, x: usize) -> usize
    requires { AgeWithin a × (x < ages) × Room buffer.old at (age_text a x) }
    ensures { Put buffer.old at (age_text a x) buffer.new result }
{
    let second = put_age_line(buffer, at, b"A.", x, a.level);
    let third = put_age_line(buffer, second, b"B.", x, a.slope);
    let fourth = put_age_line(buffer, third, b"al.", x, a.alpha);
    put_age_line(buffer, fourth, b"be.", x, a.beta)
}
