// From bytes to digits: the three calls of the C interface that answer a query of a sheet, taken as one. The theorem over any two
// such calls is in proofs/laws/Theorem.antt, and what it is stated over is this function's contract, had from theirs alone.
#![tactic(auto)]

ghost use Rattle.c_bytes_to_digits.specs.Calls.{asked, Called};

// Which call, and the rate that it is given: `kulfizan_quote`, `kulfizan_annuity` or `kulfizan_day`.
#[derive(Clone, Copy)]
pub enum Call {
    Quote,
    Annuity(i64),
    Day,
}

// The call with the term, a span or a date.
pub fn ask(
    sheet: &[u8],
    kind: &[u8],
    age: i64,
    year: i64,
    term: i64,
    call: Call,
    quote: &mut [u64],
) -> u8
    ensures { Called (asked sheet.now kind.now age year term call)
        quote.old result quote.new }
{
    match call {
        Call::Quote => kulfizan::kulfizan_quote(sheet, kind, age, year, term, quote),
        Call::Annuity(rate) => kulfizan::kulfizan_annuity(
            sheet, kind, age, year, term, rate, quote,
        ),
        Call::Day => kulfizan::kulfizan_day(sheet, age, year, term, quote),
    }
}
