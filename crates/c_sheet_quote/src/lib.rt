// A query of a sheet: the sheet's bytes, a kind's word, an age, a year and a span, for an annuity a rate, and for a survival to a
// day a date in place of the word and the span, to an answer, and the answer as five numbers in places that the caller lends.
#![tactic(auto)]

ghost use Rattle.std.specs.Prelude.{◌≡◌, [], ◌≤◌, length};
ghost use Rattle.text_tokens.specs.Text.{taken};
ghost use Rattle.quote_kinds.specs.declared.Kind.TheVariants.{Day};
ghost use Rattle.run_query.specs.code.Code.{kind_read};
ghost use Rattle.c_sheet_quote.specs.SheetQuote.{word_kind, kind_of, rated_kind_of, sheet_answer};
ghost use Rattle.c_sheet_quote.specs.SheetQuote.{quote_length, printed_number, steps_number, unit_number, quote_over};
ghost use Rattle.c_sheet_quote.specs.SheetQuote.{quoted_no, quoted_after, quote_no, quote_after};

use number_exact::Figure;
use number_exponential::GridUnit;
use quote_along::{Answer, Quote};
use quote_kinds::Kind;
use set_refusal::Refusal;

// The two ends, whether the figure is printed, its steps, and the ends' unit.
const QUOTE_LENGTH: usize = 5;

// The kind of a whole word, rates aside, and where the word ends.
fn word_kind(word: &[u8]) -> Option<(Kind, usize)>
    ensures { kind_read word.now result ≡ word_kind word.now }
{
    let (kind, end) = run_query::kind_at(word, 0)?;
    if end < word.len() {
        return None;
    }
    Some((kind, end))
}

// The kind of a word with a span and no rate: malformed where it takes a rate or a date.
fn kind_of(word: &[u8]) -> Option<(Kind, usize)>
    ensures { kind_read word.now result ≡ kind_of word.now }
{
    let (kind, end) = word_kind(word)?;
    if run_query::takes_rate(kind) {
        return None;
    }
    let rule = quote_kinds::rule_of(kind);
    if rule.dated {
        return None;
    }
    Some((kind, end))
}

// The kind of a word with a rate: malformed where it takes none.
fn rated_kind_of(word: &[u8], rate: i64) -> Option<(Kind, usize)>
    ensures { kind_read word.now result ≡ rated_kind_of word.now rate }
{
    let (kind, end) = word_kind(word)?;
    if !run_query::takes_rate(kind) {
        return None;
    }
    Some((run_query::with_rate(kind, rate), end))
}

// The answer to a query of a sheet.
fn sheet_answer(sheet: &[u8], kind: Kind, age: i64, year: i64, term: i64) -> Answer
    ensures { result ≡ sheet_answer sheet.now (taken kind []) age year term }
{
    let got = sheet_reader::read(sheet);
    let refusal = got.refusal;
    let set = got.set;
    if set_refusal::refusal_number(refusal) != 0 {
        return Err(refusal);
    }
    quote::quote_of(set, kind, age, year, term)
}

// 1 where the figure is printed, 0 where it is open.
fn printed_number(figure: Figure) -> u64
    ensures { result ≡ printed_number figure }
{
    match figure {
        Figure::Printed(_) => 1,
        Figure::Open => 0,
    }
}

// The number of steps of a printed figure, 0 where it is open.
fn steps_number(figure: Figure) -> u64
    ensures { result ≡ steps_number figure }
{
    match figure {
        Figure::Printed(steps) => steps,
        Figure::Open => 0,
    }
}

// 9 or 13, the decimals of a unit of 10^-9 or 10^-13.
fn unit_number(unit: GridUnit) -> u64
    ensures { result ≡ unit_number unit }
{
    match unit {
        GridUnit::Coarse => 9,
        GridUnit::Fine => 13,
    }
}

// Puts a quote's five numbers into the first places.
fn put_five(numbers: &mut [u64], quote: Quote)
    requires { quote_length ≤ length numbers.old }
    ensures { numbers.new ≡ quote_over quote numbers.old }
{
    let figure = quote.figure;
    let unit = quote.unit;
    numbers[0] = quote.lower;
    numbers[1] = quote.upper;
    numbers[2] = printed_number(figure);
    numbers[3] = steps_number(figure);
    numbers[4] = unit_number(unit);
}

// The same where there are so many places; the refusal's number, or 0.
fn put_quote(numbers: &mut [u64], quote: Quote) -> u8
    ensures value { result ≡ quoted_no (length numbers.old) }
    ensures numbers_after { numbers.new ≡ quoted_after quote numbers.old }
{
    if numbers.len() < QUOTE_LENGTH {
        return set_refusal::refusal_number(Refusal::BufferTooShort);
    }
    put_five(numbers, quote);
    set_refusal::refusal_number(Refusal::Accepted)
}

// Puts an answer into the first five numbers: the refusal's number, or 0; refused, every number stays as it was.
pub fn put_answer(numbers: &mut [u64], answer: Answer) -> u8
    ensures value { result ≡ quote_no answer (length numbers.old) }
    ensures numbers_after { numbers.new ≡ quote_after answer numbers.old }
{
    match answer {
        Ok(quote) => put_quote(numbers, quote),
        Err(refusal) => set_refusal::refusal_number(refusal),
    }
}

// Answers a query of a sheet, of the kind that was read, in the first five numbers: malformed where none was.
fn answer_into(
    sheet: &[u8],
    read: Option<(Kind, usize)>,
    age: i64,
    year: i64,
    term: i64,
    numbers: &mut [u64],
) -> u8
    ensures value { result ≡ quote_no (sheet_answer sheet.now (kind_read [] read) age year term)
        (length numbers.old) }
    ensures numbers_after { numbers.new ≡ quote_after
        (sheet_answer sheet.now (kind_read [] read) age year term)
        numbers.old }
{
    let Some((kind, _)) = read else {
        return set_refusal::refusal_number(Refusal::Malformed);
    };
    put_answer(numbers, sheet_answer(sheet, kind, age, year, term))
}

// Answers a query of a sheet, of a kind that takes a span and no rate, in the first five numbers. The refusal's number, or 0;
// refused, the call leaves every number as it was.
pub fn quote_into(
    sheet: &[u8],
    word: &[u8],
    age: i64,
    year: i64,
    span: i64,
    numbers: &mut [u64],
) -> u8
    ensures value { result ≡ quote_no (sheet_answer sheet.now (kind_of word.now) age year span)
        (length numbers.old) }
    ensures numbers_after { numbers.new ≡ quote_after
        (sheet_answer sheet.now (kind_of word.now) age year span)
        numbers.old }
{
    answer_into(sheet, kind_of(word), age, year, span, numbers)
}

// The same of a kind that takes a rate.
pub fn annuity_into(
    sheet: &[u8],
    word: &[u8],
    age: i64,
    year: i64,
    span: i64,
    rate: i64,
    numbers: &mut [u64],
) -> u8
    ensures value { result ≡ quote_no (sheet_answer sheet.now (rated_kind_of word.now rate) age year span)
        (length numbers.old) }
    ensures numbers_after { numbers.new ≡ quote_after
        (sheet_answer sheet.now (rated_kind_of word.now rate) age year span)
        numbers.old }
{
    answer_into(sheet, rated_kind_of(word, rate), age, year, span, numbers)
}

// The same of a survival to a day.
pub fn day_into(sheet: &[u8], age: i64, year: i64, date: i64, numbers: &mut [u64]) -> u8
    ensures value { result ≡ quote_no (sheet_answer sheet.now (taken Day []) age year date)
        (length numbers.old) }
    ensures numbers_after { numbers.new ≡ quote_after
        (sheet_answer sheet.now (taken Day []) age year date)
        numbers.old }
{
    put_answer(numbers, sheet_answer(sheet, Kind::Day, age, year, date))
}
