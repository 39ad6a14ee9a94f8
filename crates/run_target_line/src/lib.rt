// A target's line, `age=… target=…` and a line feed, read from its bytes, and the answer to it, written into a buffer that the
// caller lends.
#![tactic(auto)]

ghost use Rattle.std.specs.Prelude.{◌≡◌, ◌+◌, ◌^◌, ◌≤◌, ◌<◌, T, nat_abs, length};
ghost use Rattle.text_tokens.specs.Number.{most_digits};
ghost use Rattle.text_printing.specs.code.Put.{Room, Put};
ghost use Rattle.set_limits.specs.InLimits.{in_limits};
ghost use Rattle.run_target_line.specs.TargetLine.{read_target, year_text, told_text, found_text, target_reply, target_line, most_target};
ghost use Rattle.run_target_line.specs.code.Code.{target_read, SizedTold, SizedFound};

use quote_target::{TargetAnswer, TargetYear};
use set_params::Params;
use set_refusal::Refusal;

// What is asked: an age, and an expectancy in units of 10^-9.
#[derive(Clone, Copy)]
pub struct TargetQuery {
    pub age: i64,
    pub target: i64,
}

// What a line asks.
pub fn target_query_of(line: &[u8]) -> Option<TargetQuery>
    ensures { target_read result ≡ read_target line.now }
{
    let (age, after_age) = run_query::field_at(line, 0, b"age=")?;
    let (target, after_target) = run_query::field_at(line, after_age, b" target=")?;
    if !run_query::ends_at(line, after_target) {
        return None;
    }
    Some(TargetQuery { age, target })
}

// No answer to a target's line is longer.
pub const MOST_TARGET: usize = 67;

// Writes ` year=`, a year and a line feed; the place after it.
fn put_year(buffer: &mut [u8], at: usize, year: i64) -> usize
    requires { (nat_abs year < 10 ^ most_digits) × Room buffer.old at (year_text year) }
    ensures { Put buffer.old at (year_text year) buffer.new result }
{
    let end = run_answer_text::put_signed(buffer, at, b" year=", year);
    text_printing::put_text(buffer, end, b"\n")
}

// Writes what a year tells; the place after it.
fn put_told(buffer: &mut [u8], at: usize, told: TargetYear) -> usize
    requires { SizedTold told × Room buffer.old at (told_text told) }
    ensures { Put buffer.old at (told_text told) buffer.new result }
{
    match told {
        TargetYear::Reached(year) => put_year(buffer, at, year),
        TargetYear::Open => text_printing::put_text(buffer, at, b" year=open\n"),
        TargetYear::Never => text_printing::put_text(buffer, at, b" year=none\n"),
    }
}

// Writes what was found behind what was asked; the place after it.
fn put_found(buffer: &mut [u8], at: usize, found: TargetAnswer) -> usize
    requires { SizedFound found × Room buffer.old at (found_text found) }
    ensures { Put buffer.old at (found_text found) buffer.new result }
{
    match found {
        Ok(told) => put_told(buffer, at, told),
        Err(refusal) => run_answer_text::put_refused(buffer, at, refusal),
    }
}

// Writes what follows a target's line by a set within its limits; the place after it.
fn put_reply(buffer: &mut [u8], at: usize, p: Params, query: TargetQuery) -> usize
    requires { T (in_limits p) × Room buffer.old at (target_reply p query) }
    ensures { Put buffer.old at (target_reply p query) buffer.new result }
{
    let found = quote_target::target_within(p, query.age, query.target);
    put_found(buffer, at, found)
}

// Writes the answer to a line by a set within its limits; the place after it.
pub fn put_target(buffer: &mut [u8], at: usize, p: Params, line: &[u8]) -> usize
    requires { T (in_limits p) × (at + most_target ≤ length buffer.old) }
    ensures { Put buffer.old at (target_line p line.now) buffer.new result }
{
    let Some(query) = target_query_of(line) else {
        return run_answer_text::put_refusal(buffer, at, Refusal::Malformed);
    };
    let place = run_answer_text::put_echo(buffer, at, line);
    put_reply(buffer, place, p, query)
}
