// The year a target is reached, by the bytes of a sheet: any bytes, age and target are answered, with two numbers in places that the
// caller lends, or with one numbered refusal.
#![tactic(auto)]

ghost use Rattle.std.specs.Prelude.{◌≡◌};
ghost use Rattle.c_target_year.specs.SheetTarget.{sheet_target, told_number, told_year, target_no, found_after, year_after};

use quote_target::{TargetAnswer, TargetYear};
use set_refusal::Refusal;

// The answer by a sheet.
fn sheet_target(sheet: &[u8], age: i64, target: i64) -> TargetAnswer
    ensures { result ≡ sheet_target sheet.now age target }
{
    let got = sheet_reader::read(sheet);
    let refusal = got.refusal;
    let set = got.set;
    if set_refusal::refusal_number(refusal) != 0 {
        return Err(refusal);
    }
    quote_target::target_of(set, age, target)
}

// Puts what a year tells into the two places.
fn put_told(found: &mut u64, year: &mut i64, told: TargetYear)
    ensures number { found.new ≡ told_number told }
    ensures year { year.new ≡ told_year told }
{
    match told {
        TargetYear::Reached(named) => {
            *found = 0;
            *year = named;
        }
        TargetYear::Open => {
            *found = 1;
            *year = 0;
        }
        TargetYear::Never => {
            *found = 2;
            *year = 0;
        }
    }
}

// Puts an answer into the two places. The refusal's number, or 0; refused, both keep their values.
fn put_target(found: &mut u64, year: &mut i64, answer: TargetAnswer) -> u8
    ensures value { result ≡ target_no answer }
    ensures found_after { found.new ≡ found_after answer found.old }
    ensures year_after { year.new ≡ year_after answer year.old }
{
    match answer {
        Ok(told) => {
            put_told(found, year, told);
            set_refusal::refusal_number(Refusal::Accepted)
        }
        Err(refusal) => set_refusal::refusal_number(refusal),
    }
}

// Puts the answer by a sheet into the two places: 0 and the year where it is named, 1 and 0 where it is open, 2 and 0 where there is
// none. The refusal's number, or 0; refused, both keep their values.
pub fn target_into(sheet: &[u8], age: i64, target: i64, found: &mut u64, year: &mut i64) -> u8
    ensures value { result ≡ target_no (sheet_target sheet.now age target) }
    ensures found_after { found.new
        ≡ found_after (sheet_target sheet.now age target) found.old }
    ensures year_after { year.new
        ≡ year_after (sheet_target sheet.now age target) year.old }
{
    put_target(found, year, sheet_target(sheet, age, target))
}
