// Writes the one sheet of a parameter set into a buffer that the caller lends.
#![tactic(auto)]

ghost use Rattle.std.specs.Prelude.{◌≡◌, T, length};
ghost use Rattle.set_params.specs.Set.{ages};
ghost use Rattle.set_limits.specs.InLimits.{in_limits};
ghost use Rattle.sheet.specs.Sheet.{sheet_text, write_answer, written_buffer};
ghost use Rattle.sheet_length.specs.code.Parts.{ages_text};
ghost use Rattle.text_printing.specs.code.Put.{Room, Put};

use set_params::{AGES, Params};
use set_refusal::Refusal;
use sheet::Written;

// Writes the lines of all ages; the place after them.
fn put_ages(buffer: &mut [u8], at: usize, p: Params) -> usize
    requires { T (in_limits p) × Room buffer.old at (ages_text p ages) }
    ensures { Put buffer.old at (ages_text p ages) buffer.new result }
{
    let mut place = at;
    for age in 0..AGES {
        let four = set_params::age_of_runs(&p.level, &p.slope, &p.alpha, &p.beta, age);
        place = sheet_line_writer::put_age(buffer, place, four, age);
    }
    place
}

// Writes the sheet from the front on; the place after it.
fn put_sheet(buffer: &mut [u8], p: Params) -> usize
    requires { T (in_limits p) × Room buffer.old 0 (sheet_text p) }
    ensures { Put buffer.old 0 (sheet_text p) buffer.new result }
{
    let table = p.table;
    let sex = p.sex;
    let second = sheet_line_writer::put_table(buffer, table);
    let series = sheet_line_writer::put_sex(buffer, second, sex);
    let start = sheet_line_writer::put_series(buffer, series, p);
    let first = sheet_line_writer::put_start(buffer, start, table, p.start, p.c);
    put_ages(buffer, first, p)
}

// The sheet of the set, for any set and any buffer: refused as out of limits or short, a call leaves every byte as it was.
pub fn write(p: Params, buffer: &mut [u8]) -> Written
    ensures { (result ≡ write_answer p (length buffer.old)) × (buffer.new ≡ written_buffer p buffer.old) }
{
    if !set_limits::in_limits(p) {
        return Written {
            refusal: Refusal::OutOfLimits,
            len: 0,
        };
    }
    if buffer.len() < sheet_length::sheet_len(p) {
        return Written {
            refusal: Refusal::BufferTooShort,
            len: 0,
        };
    }
    let end = put_sheet(buffer, p);
    Written {
        refusal: Refusal::Accepted,
        len: end,
    }
}
