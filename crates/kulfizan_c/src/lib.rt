// The C interface, as it is declared in include/kulfizan.h: each call is that of the library `kulfizan`, with its clauses.
#![tactic(auto)]

ghost use Rattle.std.specs.Prelude.{◌≡◌, [], length};
ghost use Rattle.text_tokens.specs.Text.{taken};
ghost use Rattle.quote_kinds.specs.declared.Kind.TheVariants.{Day};
ghost use Rattle.c_set_numbers.specs.SetNumbers.{read_no, numbers_after, write_no, buffer_after, length_after};
ghost use Rattle.c_sheet_quote.specs.SheetQuote.{kind_of, rated_kind_of, sheet_answer, quote_no, quote_after};
ghost use Rattle.c_couple_quote.specs.SheetsCouple.{couple_kind_of, sheets_answer};
ghost use Rattle.c_target_year.specs.SheetTarget.{sheet_target, target_no, found_after, year_after};
ghost use Rattle.run_column_verdict.specs.ColumnVerdict.{sheet_verdict, verdict_no, verdict_after};
ghost use Rattle.kulfizan.specs.Run.{run_no, run_buffer, run_length};

#[unsafe(no_mangle)]
pub extern "C" fn kulfizan_read(sheet: &[u8], values: &mut [i64]) -> u8
    ensures value { result ≡ read_no sheet.now (length values.old) }
    ensures values_after { values.new ≡ numbers_after sheet.now values.old }
{
    kulfizan::kulfizan_read(sheet, values)
}

#[unsafe(no_mangle)]
pub extern "C" fn kulfizan_write(values: &[i64], buffer: &mut [u8], len: &mut u64) -> u8
    ensures value { result ≡ write_no values.now (length buffer.old) }
    ensures buffer_after { buffer.new ≡ buffer_after values.now buffer.old }
    ensures len_after { len.new ≡ length_after values.now (length buffer.old) len.old }
{
    kulfizan::kulfizan_write(values, buffer, len)
}

#[unsafe(no_mangle)]
pub extern "C" fn kulfizan_quote(
    sheet: &[u8],
    kind: &[u8],
    age: i64,
    year: i64,
    span: i64,
    quote: &mut [u64],
) -> u8
    ensures value { result ≡ quote_no (sheet_answer sheet.now (kind_of kind.now) age year span)
        (length quote.old) }
    ensures quote_after { quote.new ≡ quote_after
        (sheet_answer sheet.now (kind_of kind.now) age year span)
        quote.old }
{
    kulfizan::kulfizan_quote(sheet, kind, age, year, span, quote)
}

#[unsafe(no_mangle)]
pub extern "C" fn kulfizan_annuity(
    sheet: &[u8],
    kind: &[u8],
    age: i64,
    year: i64,
    span: i64,
    rate: i64,
    quote: &mut [u64],
) -> u8
    ensures value { result ≡ quote_no (sheet_answer sheet.now (rated_kind_of kind.now rate) age year span)
        (length quote.old) }
    ensures quote_after { quote.new ≡ quote_after
        (sheet_answer sheet.now (rated_kind_of kind.now rate) age year span)
        quote.old }
{
    kulfizan::kulfizan_annuity(sheet, kind, age, year, span, rate, quote)
}

#[unsafe(no_mangle)]
pub extern "C" fn kulfizan_day(
    sheet: &[u8],
    age: i64,
    year: i64,
    date: i64,
    quote: &mut [u64],
) -> u8
    ensures value { result ≡ quote_no (sheet_answer sheet.now (taken Day []) age year date)
        (length quote.old) }
    ensures quote_after { quote.new ≡ quote_after
        (sheet_answer sheet.now (taken Day []) age year date)
        quote.old }
{
    kulfizan::kulfizan_day(sheet, age, year, date, quote)
}

#[unsafe(no_mangle)]
pub extern "C" fn kulfizan_couple(
    first: &[u8],
    second: &[u8],
    kind: &[u8],
    age: i64,
    other: i64,
    year: i64,
    span: i64,
    quote: &mut [u64],
) -> u8
    ensures value { result ≡ quote_no
        (sheets_answer first.now second.now (couple_kind_of kind.now)
        age other year span)
        (length quote.old) }
    ensures quote_after { quote.new ≡ quote_after
        (sheets_answer first.now second.now (couple_kind_of kind.now)
        age other year span)
        quote.old }
{
    kulfizan::kulfizan_couple(first, second, kind, age, other, year, span, quote)
}

#[unsafe(no_mangle)]
pub extern "C" fn kulfizan_target(
    sheet: &[u8],
    age: i64,
    target: i64,
    found: &mut u64,
    year: &mut i64,
) -> u8
    ensures value { result ≡ target_no (sheet_target sheet.now age target) }
    ensures found_after { found.new
        ≡ found_after (sheet_target sheet.now age target) found.old }
    ensures year_after { year.new
        ≡ year_after (sheet_target sheet.now age target) year.old }
{
    kulfizan::kulfizan_target(sheet, age, target, found, year)
}

#[unsafe(no_mangle)]
pub extern "C" fn kulfizan_verdict(sheet: &[u8], year: i64, column: &[u8], verdict: &mut u64) -> u8
    ensures value { result ≡ verdict_no (sheet_verdict sheet.now year column.now) }
    ensures verdict_after { verdict.new
        ≡ verdict_after (sheet_verdict sheet.now year column.now) verdict.old }
{
    kulfizan::kulfizan_verdict(sheet, year, column, verdict)
}

#[unsafe(no_mangle)]
pub extern "C" fn kulfizan_run(input: &[u8], ends: u8, out: &mut [u8], len: &mut u64) -> u8
    ensures value { result ≡ run_no input.now (length out.old) }
    ensures out_after { out.new ≡ run_buffer input.now ends out.old }
    ensures len_after { len.new ≡ run_length input.now ends (length out.old) len.old }
{
    kulfizan::kulfizan_run(input, ends, out, len)
}
