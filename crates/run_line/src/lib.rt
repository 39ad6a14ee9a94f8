// The answer to a line of bytes by a program's mode, written into a buffer that the caller lends.
#![tactic(auto)]

ghost use Rattle.std.specs.Prelude.{◌≡◌, ◌+◌, ◌≤◌, T, length};
ghost use Rattle.text_printing.specs.code.Put.{Room, Put};
ghost use Rattle.set_limits.specs.InLimits.{in_limits};
ghost use Rattle.run_line.specs.Line.{query_answer, reply, query_line, line_answer, longest_reply, longest_line};

use quote_along::Answer;
use run_couple_line::MOST_COUPLE;
use run_query::Query;
use run_target_line::MOST_TARGET;
use set_params::Params;
use set_refusal::Refusal;

// What a program answers a line with: a query's figure, with the ends and their unit where they are asked for, its figures by two
// sheets, a couple's figure with the ends, or the year in which a target is reached.
#[derive(Clone, Copy)]
pub enum Mode {
    Quotes(bool),
    Compare,
    Couples,
    Targets,
}

// What follows a query: its answer, with the ends where they are asked for, or its answers by two sets, compared.
#[derive(Clone, Copy)]
pub enum Reply {
    Quote(bool),
    Compared,
}

// No answer is longer, whichever the mode.
pub const MOST_LINE: usize = 191;

// No answer of the mode is longer.
pub fn longest_line(mode: Mode) -> usize
    ensures { result ≡ longest_line mode }
{
    match mode {
        Mode::Quotes(_) => 159,
        Mode::Compare => 191,
        Mode::Couples => MOST_COUPLE,
        Mode::Targets => MOST_TARGET,
    }
}

// The answer to a query of a set within its limits.
pub fn answer_to(p: Params, query: Query) -> Answer
    requires { T (in_limits p) }
    ensures { result ≡ query_answer p query }
{
    let kind = query.kind;
    quote::answer_within(true, p, kind, query.age, query.year, query.term)
}

// Writes what follows a query; the place after it.
fn put_reply(
    buffer: &mut [u8],
    at: usize,
    follows: Reply,
    first: Params,
    second: Params,
    query: Query,
) -> usize
    requires { T (in_limits first) × T (in_limits second) × Room buffer.old at (reply follows first second query) }
    ensures { Put buffer.old at (reply follows first second query) buffer.new result }
{
    let kind = query.kind;
    let decimals = run_answer_text::decimals_for(kind);
    let answer = answer_to(first, query);
    match follows {
        Reply::Quote(ends) => run_answer_text::put_answer(buffer, at, ends, decimals, answer),
        Reply::Compared => {
            let other = answer_to(second, query);
            let comparison = quote_compare::compare(answer, other);
            run_compare_text::put_comparison(buffer, at, decimals, comparison)
        }
    }
}

// Writes the answer to a query's line by two sets within their limits; the place after it.
fn put_query(
    buffer: &mut [u8],
    at: usize,
    follows: Reply,
    first: Params,
    second: Params,
    line: &[u8],
) -> usize
    requires { T (in_limits first) × T (in_limits second) × (at + longest_reply follows ≤ length buffer.old) }
    ensures { Put buffer.old at (query_line follows first second line.now) buffer.new result }
{
    let Some(query) = run_query::query_of(line) else {
        return run_answer_text::put_refusal(buffer, at, Refusal::Malformed);
    };
    let place = run_answer_text::put_echo(buffer, at, line);
    put_reply(buffer, place, follows, first, second, query)
}

// Writes the answer to a line by two sets within their limits; the place after it.
pub fn put_line(
    buffer: &mut [u8],
    at: usize,
    mode: Mode,
    first: Params,
    second: Params,
    line: &[u8],
) -> usize
    requires { T (in_limits first) × T (in_limits second) × (at + longest_line mode ≤ length buffer.old) }
    ensures { Put buffer.old at (line_answer mode first second line.now) buffer.new result }
{
    match mode {
        Mode::Quotes(ends) => put_query(buffer, at, Reply::Quote(ends), first, second, line),
        Mode::Compare => put_query(buffer, at, Reply::Compared, first, second, line),
        Mode::Couples => run_couple_line::put_couple(buffer, at, first, second, line),
        Mode::Targets => run_target_line::put_target(buffer, at, first, line),
    }
}
