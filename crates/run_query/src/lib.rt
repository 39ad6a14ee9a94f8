// A query line, `kind=… age=… year=… span=…`, a survival to a day's with ` date=…` in its place, an annuity's with ` rate=…`, and
// a line feed, read from its bytes.
#![tactic(auto)]

ghost use Rattle.std.specs.Prelude.{◌≡◌, drop};
ghost use Rattle.text_tokens.specs.code.Places.{number_read};
ghost use Rattle.quote_kinds.specs.Kinds.{takes_rate, with_rate};
ghost use Rattle.run_query.specs.Query.{word_of, on_offer, term_name, read_word, read_field, read_rate, read_query};
ghost use Rattle.run_query.specs.code.Code.{kind_read, query_read, line_ends};

use quote_kinds::Kind;

// What is asked of a life; the term is a span, or of the kind `day` a date.
#[derive(Clone, Copy)]
pub struct Query {
    pub kind: Kind,
    pub age: i64,
    pub year: i64,
    pub term: i64,
}

// Whether a kind takes a rate.
pub fn takes_rate(kind: Kind) -> bool
    ensures { result ≡ takes_rate kind }
{
    match kind {
        Kind::Death => false,
        Kind::CohortSurvival => false,
        Kind::PeriodSurvival => false,
        Kind::CohortExpectancy => false,
        Kind::PeriodExpectancy => false,
        Kind::CohortAnnuity(_) => true,
        Kind::PeriodAnnuity(_) => true,
        Kind::Day => false,
    }
}

// The kind with another rate, where it takes one.
pub fn with_rate(kind: Kind, rate: i64) -> Kind
    ensures { result ≡ with_rate kind rate }
{
    match kind {
        Kind::Death => Kind::Death,
        Kind::CohortSurvival => Kind::CohortSurvival,
        Kind::PeriodSurvival => Kind::PeriodSurvival,
        Kind::CohortExpectancy => Kind::CohortExpectancy,
        Kind::PeriodExpectancy => Kind::PeriodExpectancy,
        Kind::CohortAnnuity(_) => Kind::CohortAnnuity(rate),
        Kind::PeriodAnnuity(_) => Kind::PeriodAnnuity(rate),
        Kind::Day => Kind::Day,
    }
}

// The kind whose word stands at a place, rates aside, with the place after it.
pub fn kind_at(bytes: &[u8], at: usize) -> Option<(Kind, usize)>
    ensures { kind_read bytes.now result ≡ read_word word_of on_offer (drop at bytes.now) }
{
    if text_tokens::text_at(bytes, at, b"q") {
        return Some((Kind::Death, at + 1));
    }
    if text_tokens::text_at(bytes, at, b"coh") {
        return Some((Kind::CohortSurvival, at + 3));
    }
    if text_tokens::text_at(bytes, at, b"per") {
        return Some((Kind::PeriodSurvival, at + 3));
    }
    if text_tokens::text_at(bytes, at, b"ecoh") {
        return Some((Kind::CohortExpectancy, at + 4));
    }
    if text_tokens::text_at(bytes, at, b"eper") {
        return Some((Kind::PeriodExpectancy, at + 4));
    }
    if text_tokens::text_at(bytes, at, b"acoh") {
        return Some((Kind::CohortAnnuity(0), at + 4));
    }
    if text_tokens::text_at(bytes, at, b"aper") {
        return Some((Kind::PeriodAnnuity(0), at + 4));
    }
    if text_tokens::text_at(bytes, at, b"day") {
        return Some((Kind::Day, at + 3));
    }
    None
}

// The number behind a name at a place, with the place after it.
pub fn field_at(bytes: &[u8], at: usize, name: &[u8]) -> Option<(i64, usize)>
    ensures { number_read bytes.now result
        ≡ read_field name.now (drop at bytes.now) }
{
    if !text_tokens::text_at(bytes, at, name) {
        return None;
    }
    text_numbers::number_at(bytes, at + name.len())
}

// The term of a kind at a place: a date, or a span.
fn term_at(bytes: &[u8], at: usize, kind: Kind) -> Option<(i64, usize)>
    ensures { number_read bytes.now result ≡ read_field (term_name kind) (drop at bytes.now) }
{
    let rule = quote_kinds::rule_of(kind);
    if rule.dated {
        return field_at(bytes, at, b" date=");
    }
    field_at(bytes, at, b" span=")
}

// The kind with the rate that stands at a place, where it takes one, and the place after it.
fn rate_at(bytes: &[u8], at: usize, kind: Kind) -> Option<(Kind, usize)>
    ensures { kind_read bytes.now result ≡ read_rate kind (drop at bytes.now) }
{
    if !takes_rate(kind) {
        return Some((kind, at));
    }
    let (rate, next) = field_at(bytes, at, b" rate=")?;
    Some((with_rate(kind, rate), next))
}

// Whether a line ends at a place: a line feed, and nothing behind it.
pub fn ends_at(line: &[u8], at: usize) -> bool
    ensures { result ≡ line_ends (drop at line.now) }
{
    text_tokens::text_at(line, at, b"\n") && line.len() <= at + 1
}

// The query of a line.
pub fn query_of(line: &[u8]) -> Option<Query>
    ensures { query_read result ≡ read_query line.now }
{
    if !text_tokens::text_at(line, 0, b"kind=") {
        return None;
    }
    let (word, after_word) = kind_at(line, 5)?;
    let (age, after_age) = field_at(line, after_word, b" age=")?;
    let (year, after_year) = field_at(line, after_age, b" year=")?;
    let (term, after_term) = term_at(line, after_year, word)?;
    let (kind, after_rate) = rate_at(line, after_term, word)?;
    if !ends_at(line, after_rate) {
        return None;
    }
    Some(Query {
        kind,
        age,
        year,
        term,
    })
}
