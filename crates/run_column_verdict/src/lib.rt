// The verdict on a column that somebody published, from its bytes: any year and any bytes are answered, with a verdict or one
// numbered refusal. By a set, and by the bytes of a sheet, whose answer goes as a number into a place that the caller lends.
#![tactic(auto)]

ghost use Rattle.std.specs.Prelude.{◌≡◌};
ghost use Rattle.run_column_verdict.specs.ColumnVerdict.{column_verdict, HonestOn};
ghost use Rattle.run_column_verdict.specs.ColumnVerdict.{sheet_verdict, verdict_number, verdict_no, verdict_after};

use quote_verdicts::{Judged, Verdict};
use set_params::Params;
use set_refusal::Refusal;

// What is answered of the bytes.
pub fn verdict_on(p: Params, year: i64, bytes: &[u8]) -> Judged
    ensures answered { result ≡ column_verdict p year bytes.now }
    ensures honest { HonestOn p year bytes.now result }
{
    let read = run_column_text::column_of(bytes);
    quote_verdicts::judge(p, year, read)
}

// What is answered of a column by a sheet.
fn sheet_verdict(sheet: &[u8], year: i64, column: &[u8]) -> Judged
    ensures { result ≡ sheet_verdict sheet.now year column.now }
{
    let got = sheet_reader::read(sheet);
    let refusal = got.refusal;
    let set = got.set;
    if set_refusal::refusal_number(refusal) != 0 {
        return Err(refusal);
    }
    verdict_on(set, year, column)
}

// A verdict's number.
fn verdict_number(verdict: Verdict) -> u64
    ensures { result ≡ verdict_number verdict }
{
    match verdict {
        Verdict::Right => 0,
        Verdict::Wrong => 1,
        Verdict::Open => 2,
    }
}

// Puts a verdict's number into its place. The refusal's number, or 0; refused, the place keeps its value.
fn put_judged(place: &mut u64, judged: Judged) -> u8
    ensures { (result ≡ verdict_no judged) × (place.new ≡ verdict_after judged place.old) }
{
    match judged {
        Ok(verdict) => {
            *place = verdict_number(verdict);
            set_refusal::refusal_number(Refusal::Accepted)
        }
        Err(refusal) => set_refusal::refusal_number(refusal),
    }
}

// Puts the verdict on a column by a sheet into the place. The refusal's number, or 0; refused, the place keeps its value.
pub fn verdict_into(sheet: &[u8], year: i64, column: &[u8], verdict: &mut u64) -> u8
    ensures value { result ≡ verdict_no (sheet_verdict sheet.now year column.now) }
    ensures verdict_after { verdict.new
        ≡ verdict_after (sheet_verdict sheet.now year column.now) verdict.old }
{
    put_judged(verdict, sheet_verdict(sheet, year, column))
}
