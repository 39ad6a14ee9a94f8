// A query of two sheets: the bytes of each life's sheet, a kind's word, two ages, a year and a span, to an answer, and the answer as
// five numbers in places that the caller lends.
#![tactic(auto)]

ghost use Rattle.std.specs.Prelude.{◌≡◌, length};
ghost use Rattle.sheet.specs.Sheet.{read_sheet};
ghost use Rattle.run_couple_query.specs.code.Code.{couple_kind_read};
ghost use Rattle.c_sheet_quote.specs.SheetQuote.{quote_no, quote_after};
ghost use Rattle.c_couple_quote.specs.SheetsCouple.{couple_kind_of, readings_answer, sheets_answer};

use quote_along::Answer;
use quote_couple_kinds::CoupleKind;
use set_refusal::Refusal;

// The couple's kind of a whole word, and where the word ends.
fn couple_kind_of(word: &[u8]) -> Option<(CoupleKind, usize)>
    ensures { couple_kind_read word.now result ≡ couple_kind_of word.now }
{
    let (kind, end) = run_couple_query::couple_kind_at(word, 0)?;
    if end < word.len() {
        return None;
    }
    Some((kind, end))
}

// The answer to a query of two sheets.
fn sheets_answer(
    first: &[u8],
    second: &[u8],
    kind: CoupleKind,
    age: i64,
    other: i64,
    year: i64,
    span: i64,
) -> Answer
    ensures { result ≡ readings_answer (read_sheet first.now) (read_sheet second.now)
        kind age other year span }
{
    let one = sheet_reader::read(first);
    let two = sheet_reader::read(second);
    let one_refusal = one.refusal;
    let two_refusal = two.refusal;
    let one_set = one.set;
    let two_set = two.set;
    let refusal = set_refusal::lower_refusal(one_refusal, two_refusal);
    if set_refusal::refusal_number(refusal) != 0 {
        return Err(refusal);
    }
    quote_couple::couple_of(one_set, two_set, kind, age, other, year, span)
}

// Answers a query of two sheets in the first five numbers. The refusal's number, or 0; refused, the call leaves every number as it
// was.
pub fn couple_into(
    first: &[u8],
    second: &[u8],
    word: &[u8],
    age: i64,
    other: i64,
    year: i64,
    span: i64,
    numbers: &mut [u64],
) -> u8
    ensures value { result ≡ quote_no
        (sheets_answer first.now second.now (couple_kind_of word.now)
        age other year span)
        (length numbers.old) }
    ensures numbers_after { numbers.new ≡ quote_after
        (sheets_answer first.now second.now (couple_kind_of word.now)
        age other year span)
        numbers.old }
{
    let Some((kind, _)) = couple_kind_of(word) else {
        return set_refusal::refusal_number(Refusal::Malformed);
    };
    c_sheet_quote::put_answer(
        numbers,
        sheets_answer(first, second, kind, age, other, year, span),
    )
}
