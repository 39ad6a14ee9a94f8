// The whole run of a verdict: a sheet, a year's line and a column to the one line of the answer, written into a buffer that the
// caller lends.
#![tactic(auto)]

ghost use Rattle.std.specs.Prelude.{◌≡◌, ◌≤◌, length, drop};
ghost use Rattle.text_tokens.specs.code.Places.{number_read};
ghost use Rattle.text_printing.specs.code.Put.{Put};
ghost use Rattle.run_verdict_text.specs.VerdictText.{most_verdict};
ghost use Rattle.run_verdict.specs.VerdictRun.{read_year, verdict_run};
ghost use Rattle.run_verdict.specs.code.Code.{PlaceIn};

use run_sheets::Sheets;
use set_refusal::Refusal;

// The year of the line at a place, and the place after the line.
fn year_at(bytes: &[u8], at: usize) -> Option<(i64, usize)>
    ensures { (number_read bytes.now result ≡ read_year (drop at bytes.now))
        × PlaceIn (length bytes.now) result }
{
    let (year, after) = run_query::field_at(bytes, at, b"year=")?;
    if !text_tokens::text_at(bytes, after, b"\n") {
        return None;
    }
    Some((year, after + 1))
}

// Writes the one line of an input into a buffer that has room for any; the place after it.
pub fn put_verdict(input: &[u8], out: &mut [u8]) -> usize
    requires { most_verdict ≤ length out.old }
    ensures { Put out.old 0 (verdict_run input.now) out.new result }
{
    let front = run_sheets::read_front(Sheets::One, input);
    let Some((year, next)) = year_at(input, front.next) else {
        return run_answer_text::put_refusal(out, 0, Refusal::Malformed);
    };
    let refusal = front.refusal;
    if set_refusal::refusal_number(refusal) != 0 {
        return run_answer_text::put_refusal(out, 0, refusal);
    }
    let set = front.first;
    let judged = run_column_verdict::verdict_on(set, year, &input[next..]);
    run_verdict_text::put_line(out, year, judged)
}
