// A couple's query line, `kind=… age=… age2=… year=… span=…` and a line feed, read from its bytes.
#![tactic(auto)]

ghost use Rattle.std.specs.Prelude.{◌≡◌, drop};
ghost use Rattle.run_query.specs.Query.{read_word};
ghost use Rattle.run_couple_query.specs.CoupleQuery.{couple_word, couples_on_offer, read_couple};
ghost use Rattle.run_couple_query.specs.code.Code.{couple_kind_read, couple_read};

use quote_couple_kinds::CoupleKind;

// What is asked of two lives: `age` is the first's and `other` the second's.
#[derive(Clone, Copy)]
pub struct CoupleQuery {
    pub kind: CoupleKind,
    pub age: i64,
    pub other: i64,
    pub year: i64,
    pub span: i64,
}

// The kind whose word stands at a place, with the place after it.
pub fn couple_kind_at(bytes: &[u8], at: usize) -> Option<(CoupleKind, usize)>
    ensures { couple_kind_read bytes.now result
        ≡ read_word couple_word couples_on_offer (drop at bytes.now) }
{
    if text_tokens::text_at(bytes, at, b"joint") {
        return Some((CoupleKind::JointLife, at + 5));
    }
    if text_tokens::text_at(bytes, at, b"last") {
        return Some((CoupleKind::LastSurvivor, at + 4));
    }
    if text_tokens::text_at(bytes, at, b"ejoint") {
        return Some((CoupleKind::JointExpectancy, at + 6));
    }
    if text_tokens::text_at(bytes, at, b"elast") {
        return Some((CoupleKind::LastExpectancy, at + 5));
    }
    None
}

// The query of a line.
pub fn couple_query_of(line: &[u8]) -> Option<CoupleQuery>
    ensures { couple_read result ≡ read_couple line.now }
{
    if !text_tokens::text_at(line, 0, b"kind=") {
        return None;
    }
    let (kind, after_kind) = couple_kind_at(line, 5)?;
    let (age, after_age) = run_query::field_at(line, after_kind, b" age=")?;
    let (other, after_other) = run_query::field_at(line, after_age, b" age2=")?;
    let (year, after_year) = run_query::field_at(line, after_other, b" year=")?;
    let (span, after_span) = run_query::field_at(line, after_year, b" span=")?;
    if !run_query::ends_at(line, after_span) {
        return None;
    }
    Some(CoupleQuery {
        kind,
        age,
        other,
        year,
        span,
    })
}
