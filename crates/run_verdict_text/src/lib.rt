// What is printed of a verdict: the year, and the verdict's word or a refusal, written into a buffer that the caller lends.
#![tactic(auto)]

ghost use Rattle.std.specs.Prelude.{◌^◌, ◌<◌, nat_abs};
ghost use Rattle.text_tokens.specs.Number.{most_digits};
ghost use Rattle.text_printing.specs.code.Put.{Room, Put};
ghost use Rattle.run_verdict_text.specs.VerdictText.{word_text, judged_text, verdict_line};

use quote_verdicts::{Judged, Verdict};

// No line is longer.
pub const MOST_VERDICT: usize = 36;

// Writes ` verdict=`, the verdict's word and a line feed; the place after it.
fn put_word(out: &mut [u8], at: usize, verdict: Verdict) -> usize
    requires { Room out.old at (word_text verdict) }
    ensures { Put out.old at (word_text verdict) out.new result }
{
    match verdict {
        Verdict::Right => text_printing::put_text(out, at, b" verdict=right\n"),
        Verdict::Wrong => text_printing::put_text(out, at, b" verdict=wrong\n"),
        Verdict::Open => text_printing::put_text(out, at, b" verdict=open\n"),
    }
}

// Writes what follows the year; the place after it.
fn put_judged(out: &mut [u8], at: usize, judged: Judged) -> usize
    requires { Room out.old at (judged_text judged) }
    ensures { Put out.old at (judged_text judged) out.new result }
{
    match judged {
        Ok(verdict) => put_word(out, at, verdict),
        Err(refusal) => run_answer_text::put_refused(out, at, refusal),
    }
}

// Writes the line of a year; the place after it.
pub fn put_line(out: &mut [u8], year: i64, judged: Judged) -> usize
    requires { (nat_abs year < 10 ^ most_digits) × Room out.old 0 (verdict_line year judged) }
    ensures { Put out.old 0 (verdict_line year judged) out.new result }
{
    let end = run_answer_text::put_signed(out, 0, b"year=", year);
    put_judged(out, end, judged)
}
