// What is printed of a query: its line, and what follows it, written into a buffer that the caller lends.
#![tactic(auto)]

ghost use Rattle.std.specs.Prelude.{◌≡◌, ◌++◌, ◌^◌, ◌<◌, nat_abs, length};
ghost use Rattle.text_tokens.specs.Number.{most_digits, unsigned_text, number_text};
ghost use Rattle.text_printing.specs.code.Put.{Room, Put};
ghost use Rattle.run_answer_text.specs.AnswerText.{refusal_line, refused_text, ends_text, quote_text, kind_decimals, answer_text};
ghost use Rattle.run_answer_text.specs.AnswerText.{end_digits, end_text, unit_text, without_feed};
ghost use Rattle.run_answer_text.specs.code.Sizes.{Sized, SizedAnswer};

use number_exponential::GridUnit;
use quote_along::{Answer, Quote};
use quote_kinds::Kind;
use set_refusal::Refusal;

// The decimals of a kind's figures.
pub fn decimals_for(kind: Kind) -> usize
    ensures { result ≡ kind_decimals kind }
{
    let rule = quote_kinds::rule_of(kind);
    let fold = rule.fold;
    quote_kinds::decimals_of(fold)
}

// Writes a line without its line feed; the place after it.
pub fn put_echo(buffer: &mut [u8], at: usize, line: &[u8]) -> usize
    requires { (0 < length line.now) × Room buffer.old at (without_feed line.now) }
    ensures { Put buffer.old at (without_feed line.now) buffer.new result }
{
    let end = line.len() - 1;
    text_printing::put_text(buffer, at, &line[..end])
}

// Writes a name and a number, either side of 0; the place after them.
pub fn put_signed(buffer: &mut [u8], at: usize, name: &[u8], v: i64) -> usize
    requires { (nat_abs v < 10 ^ most_digits) × Room buffer.old at (name.now ++ number_text v) }
    ensures { Put buffer.old at (name.now ++ number_text v) buffer.new result }
{
    let place = text_printing::put_text(buffer, at, name);
    text_printing::put_number(buffer, place, v)
}

// Writes a name and a number; the place after them.
pub fn put_field(buffer: &mut [u8], at: usize, name: &[u8], n: u64) -> usize
    requires { (n < 10 ^ most_digits) × Room buffer.old at (name.now ++ unsigned_text n) }
    ensures { Put buffer.old at (name.now ++ unsigned_text n) buffer.new result }
{
    put_signed(buffer, at, name, n as i64)
}

// Writes `no=` and a refusal's number, as a line; the place after it.
pub fn put_refusal(buffer: &mut [u8], at: usize, refusal: Refusal) -> usize
    requires { Room buffer.old at (refusal_line refusal) }
    ensures { Put buffer.old at (refusal_line refusal) buffer.new result }
{
    let number = set_refusal::refusal_number(refusal) as u64;
    let end = put_field(buffer, at, b"no=", number);
    text_printing::put_text(buffer, end, b"\n")
}

// Writes a refusal behind what is refused; the place after it.
pub fn put_refused(buffer: &mut [u8], at: usize, refusal: Refusal) -> usize
    requires { Room buffer.old at (refused_text refusal) }
    ensures { Put buffer.old at (refused_text refusal) buffer.new result }
{
    let place = text_printing::put_text(buffer, at, b" ");
    put_refusal(buffer, place, refusal)
}

// Writes the digits of a number of units, one digit more than other numbers have; the place after them.
fn put_end(buffer: &mut [u8], at: usize, n: u64) -> usize
    requires { (n < 10 ^ end_digits) × Room buffer.old at (end_text n) }
    ensures { Put buffer.old at (end_text n) buffer.new result }
{
    if n < 10 {
        return text_printing::put_digits(buffer, at, n);
    }
    let last = text_printing::put_digits(buffer, at, n / 10);
    buffer[last] = b'0' + (n % 10) as u8;
    last + 1
}

// Writes a name and a number of units; the place after them.
pub fn put_units(buffer: &mut [u8], at: usize, name: &[u8], n: u64) -> usize
    requires { (n < 10 ^ end_digits) × Room buffer.old at (name.now ++ end_text n) }
    ensures { Put buffer.old at (name.now ++ end_text n) buffer.new result }
{
    let place = text_printing::put_text(buffer, at, name);
    put_end(buffer, place, n)
}

// Writes ` unit=` and a unit; the place after it.
pub fn put_unit(buffer: &mut [u8], at: usize, unit: GridUnit) -> usize
    requires { Room buffer.old at (unit_text unit) }
    ensures { Put buffer.old at (unit_text unit) buffer.new result }
{
    match unit {
        GridUnit::Coarse => text_printing::put_text(buffer, at, b" unit=9"),
        GridUnit::Fine => text_printing::put_text(buffer, at, b" unit=13"),
    }
}

// Writes the two ends and their unit where they are asked for; the place after them.
fn put_ends(
    buffer: &mut [u8],
    at: usize,
    ends: bool,
    unit: GridUnit,
    lower: u64,
    upper: u64,
) -> usize
    requires { (lower < 10 ^ end_digits) × (upper < 10 ^ end_digits) × Room buffer.old at (ends_text ends unit lower upper) }
    ensures { Put buffer.old at (ends_text ends unit lower upper) buffer.new result }
{
    if !ends {
        return at;
    }
    let place = put_units(buffer, at, b" lo=", lower);
    let end = put_units(buffer, place, b" hi=", upper);
    put_unit(buffer, end, unit)
}

// Writes what follows a query that is quoted, with the ends and their unit where they are asked for; the place after it.
fn put_quote(buffer: &mut [u8], at: usize, ends: bool, decimals: usize, quote: Quote) -> usize
    requires { Sized quote × Room buffer.old at (quote_text ends decimals quote) }
    ensures { Put buffer.old at (quote_text ends decimals quote) buffer.new result }
{
    let unit = quote.unit;
    let figure = quote.figure;
    let place = put_ends(buffer, at, ends, unit, quote.lower, quote.upper);
    let end = run_figure_text::put_shown(buffer, place, decimals, figure);
    text_printing::put_text(buffer, end, b"\n")
}

// Writes what follows a query; the place after it.
pub fn put_answer(
    buffer: &mut [u8],
    at: usize,
    ends: bool,
    decimals: usize,
    answer: Answer,
) -> usize
    requires { SizedAnswer answer × Room buffer.old at (answer_text ends decimals answer) }
    ensures { Put buffer.old at (answer_text ends decimals answer) buffer.new result }
{
    match answer {
        Ok(quote) => put_quote(buffer, at, ends, decimals, quote),
        Err(refusal) => put_refused(buffer, at, refusal),
    }
}
