// The answer to a couple's line of bytes, written into a buffer that the caller lends.
#![tactic(auto)]

ghost use Rattle.std.specs.Prelude.{◌≡◌, ◌+◌, ◌≤◌, T, length};
ghost use Rattle.text_printing.specs.code.Put.{Room, Put};
ghost use Rattle.set_limits.specs.InLimits.{in_limits};
ghost use Rattle.run_couple_line.specs.CoupleLine.{query_couple, couple_reply, couple_line, most_couple};

use quote_along::Answer;
use run_couple_query::CoupleQuery;
use set_params::Params;
use set_refusal::Refusal;

// No answer to a couple's line is longer.
pub const MOST_COUPLE: usize = 161;

// The answer to a query of two lives, each with a set within its limits.
pub fn couple_to(first: Params, second: Params, query: CoupleQuery) -> Answer
    requires { T (in_limits first) × T (in_limits second) }
    ensures { result ≡ query_couple first second query }
{
    let kind = query.kind;
    quote_couple::couple_within(
        first,
        second,
        kind,
        query.age,
        query.other,
        query.year,
        query.span,
    )
}

// Writes what follows a query; the place after it.
fn put_reply(
    buffer: &mut [u8],
    at: usize,
    first: Params,
    second: Params,
    query: CoupleQuery,
) -> usize
    requires { T (in_limits first) × T (in_limits second) × Room buffer.old at (couple_reply first second query) }
    ensures { Put buffer.old at (couple_reply first second query) buffer.new result }
{
    let kind = query.kind;
    let single = quote_couple_kinds::single_of(kind);
    let decimals = run_answer_text::decimals_for(single);
    let answer = couple_to(first, second, query);
    run_answer_text::put_answer(buffer, at, true, decimals, answer)
}

// Writes the answer to a line by two sets within their limits; the place after it.
pub fn put_couple(buffer: &mut [u8], at: usize, first: Params, second: Params, line: &[u8]) -> usize
    requires { T (in_limits first) × T (in_limits second) × (at + most_couple ≤ length buffer.old) }
    ensures { Put buffer.old at (couple_line first second line.now) buffer.new result }
{
    let Some(query) = run_couple_query::couple_query_of(line) else {
        return run_answer_text::put_refusal(buffer, at, Refusal::Malformed);
    };
    let place = run_answer_text::put_echo(buffer, at, line);
    put_reply(buffer, place, first, second, query)
}
