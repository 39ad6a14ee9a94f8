// The calls of the C interface, for programs in other languages, which `kulfizan_c` exports: a sheet read into numbers, numbers written as a sheet, a query of a
// sheet answered, with a rate, a date or neither, a query of a couple's two sheets, the year a target is reached, the verdict on a
// published column, and the whole run of an input.
#![tactic(auto)]

ghost use Rattle.std.specs.Prelude.{◌≡◌, [], length};
ghost use Rattle.text_tokens.specs.Text.{taken};
ghost use Rattle.quote_kinds.specs.declared.Kind.TheVariants.{Day};
ghost use Rattle.c_set_numbers.specs.SetNumbers.{read_no, numbers_after, write_no, buffer_after, length_after};
ghost use Rattle.c_sheet_quote.specs.SheetQuote.{kind_of, rated_kind_of, sheet_answer, quote_no, quote_after};
ghost use Rattle.c_couple_quote.specs.SheetsCouple.{couple_kind_of, sheets_answer};
ghost use Rattle.c_target_year.specs.SheetTarget.{sheet_target, target_no, found_after, year_after};
ghost use Rattle.run_column_verdict.specs.ColumnVerdict.{sheet_verdict, verdict_no, verdict_after};
ghost use Rattle.kulfizan.specs.Run.{run_no, run_buffer, run_length};

use run::Program;
use run_line::Mode;

// Reads a sheet into the first 372 numbers: the table, the sex, a, theta, K, k, the start and c, and then A, B, alpha and beta of
// each age. The refusal's number, or 0; refused, the call leaves every number as it was.
pub fn kulfizan_read(sheet: &[u8], values: &mut [i64]) -> u8
    ensures value { result ≡ read_no sheet.now (length values.old) }
    ensures values_after { values.new ≡ numbers_after sheet.now values.old }
{
    c_set_numbers::read_into(sheet, values)
}

// Writes the sheet of a set's 372 numbers into the buffer, and its length. The refusal's number, or 0; refused, the call
// leaves every byte and the length as they were.
pub fn kulfizan_write(values: &[i64], buffer: &mut [u8], len: &mut u64) -> u8
    ensures value { result ≡ write_no values.now (length buffer.old) }
    ensures buffer_after { buffer.new ≡ buffer_after values.now buffer.old }
    ensures len_after { len.new ≡ length_after values.now (length buffer.old) len.old }
{
    c_set_numbers::write_from(values, buffer, len)
}

// Answers a query of a sheet, of a kind that takes a span and no rate, in the first five numbers: the two ends, 1 where the figure is
// printed and 0 where it is open, its steps, and 9 or 13, where the ends are in units of 10^-9 or 10^-13. The refusal's number, or 0;
// refused, the call leaves every number as it was.
pub fn kulfizan_quote(
    sheet: &[u8],
    kind: &[u8],
    age: i64,
    year: i64,
    span: i64,
    quote: &mut [u64],
) -> u8
    ensures value { result ≡ quote_no (sheet_answer sheet.now (kind_of kind.now) age year span)
        (length quote.old) }
    ensures quote_after { quote.new ≡ quote_after
        (sheet_answer sheet.now (kind_of kind.now) age year span)
        quote.old }
{
    c_sheet_quote::quote_into(sheet, kind, age, year, span, quote)
}

// The same of a kind that takes a rate, in units of 10^-6.
pub fn kulfizan_annuity(
    sheet: &[u8],
    kind: &[u8],
    age: i64,
    year: i64,
    span: i64,
    rate: i64,
    quote: &mut [u64],
) -> u8
    ensures value { result ≡ quote_no (sheet_answer sheet.now (rated_kind_of kind.now rate) age year span)
        (length quote.old) }
    ensures quote_after { quote.new ≡ quote_after
        (sheet_answer sheet.now (rated_kind_of kind.now rate) age year span)
        quote.old }
{
    c_sheet_quote::annuity_into(sheet, kind, age, year, span, rate, quote)
}

// The same of a survival to a day, its date as YYYYMMDD.
pub fn kulfizan_day(sheet: &[u8], age: i64, year: i64, date: i64, quote: &mut [u64]) -> u8
    ensures value { result ≡ quote_no (sheet_answer sheet.now (taken Day []) age year date)
        (length quote.old) }
    ensures quote_after { quote.new ≡ quote_after
        (sheet_answer sheet.now (taken Day []) age year date)
        quote.old }
{
    c_sheet_quote::day_into(sheet, age, year, date, quote)
}

// The same of a couple: two lives, each with its own sheet and age, the year and the span in common.
pub fn kulfizan_couple(
    first: &[u8],
    second: &[u8],
    kind: &[u8],
    age: i64,
    other: i64,
    year: i64,
    span: i64,
    quote: &mut [u64],
) -> u8
    ensures value { result ≡ quote_no
        (sheets_answer first.now second.now (couple_kind_of kind.now)
        age other year span)
        (length quote.old) }
    ensures quote_after { quote.new ≡ quote_after
        (sheets_answer first.now second.now (couple_kind_of kind.now)
        age other year span)
        quote.old }
{
    c_couple_quote::couple_into(first, second, kind, age, other, year, span, quote)
}

// Finds the first quote year whose period expectancy at an age reaches a target, in units of 10^-9: the first number is then 0 where
// the year is named, 1 where it is open and 2 where there is none, and the second the year, or 0. The refusal's number, or 0;
// refused, the call leaves both numbers as they were.
pub fn kulfizan_target(sheet: &[u8], age: i64, target: i64, found: &mut u64, year: &mut i64) -> u8
    ensures value { result ≡ target_no (sheet_target sheet.now age target) }
    ensures found_after { found.new
        ≡ found_after (sheet_target sheet.now age target) found.old }
    ensures year_after { year.new
        ≡ year_after (sheet_target sheet.now age target) year.old }
{
    c_target_year::target_into(sheet, age, target, found, year)
}

// Checks a published column of q for one year by a sheet: the number is then 0 for right, 1 for wrong and 2 for open. The refusal's
// number, or 0; refused, the call leaves the number as it was.
pub fn kulfizan_verdict(sheet: &[u8], year: i64, column: &[u8], verdict: &mut u64) -> u8
    ensures value { result ≡ verdict_no (sheet_verdict sheet.now year column.now) }
    ensures verdict_after { verdict.new
        ≡ verdict_after (sheet_verdict sheet.now year column.now) verdict.old }
{
    run_column_verdict::verdict_into(sheet, year, column, verdict)
}

// Writes the whole run of an input into the buffer, and its length: as the program `quotes` prints it where
// `ends` is 0, else as `ends` does. 0, or 7 where the buffer has fewer than 5·n + 159 bytes for n bytes of input; refused, the
// call leaves every byte and the length as they were.
pub fn kulfizan_run(input: &[u8], ends: u8, out: &mut [u8], len: &mut u64) -> u8
    ensures value { result ≡ run_no input.now (length out.old) }
    ensures out_after { out.new ≡ run_buffer input.now ends out.old }
    ensures len_after { len.new ≡ run_length input.now ends (length out.old) len.old }
{
    let program = Program::Lines(Mode::Quotes(ends != 0));
    c_set_numbers::tell(run::run(program, input, out), len)
}
