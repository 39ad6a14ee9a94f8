// The refusals of the papers.
#![tactic(auto)]

ghost use Rattle.std.specs.Prelude.{◌≡◌};
ghost use Rattle.set_refusal.specs.Refusals.{refusal_number, lower_refusal};

// The papers' refusals, and none; where the papers have a word of the trade it is given.
#[derive(Clone, Copy)]
pub enum Refusal {
    Accepted,
    // "torn"
    Malformed,
    // "off scale"
    OutOfLimits,
    NoSuchAge,
    NoSuchYear,
    NoSuchSpan,
    // "steep"
    LogForceOutOfRange,
    // "short"
    BufferTooShort,
    NoSuchRate,
    // "torn column"
    MalformedColumn,
    NoSuchDate,
    StartsDiffer,
}

// The number of a refusal in the papers, and 0 where nothing is refused.
pub fn refusal_number(r: Refusal) -> u8
    ensures { result ≡ refusal_number r }
{
    match r {
        Refusal::Accepted => 0,
        Refusal::Malformed => 1,
        Refusal::OutOfLimits => 2,
        Refusal::NoSuchAge => 3,
        Refusal::NoSuchYear => 4,
        Refusal::NoSuchSpan => 5,
        Refusal::LogForceOutOfRange => 6,
        Refusal::BufferTooShort => 7,
        Refusal::NoSuchRate => 8,
        Refusal::MalformedColumn => 9,
        Refusal::NoSuchDate => 10,
        Refusal::StartsDiffer => 11,
    }
}

// Of the refusals of two lives the one with the lower number, and of equal ones the first's; where one life is not refused, the
// other's.
pub fn lower_refusal(first: Refusal, second: Refusal) -> Refusal
    ensures { result ≡ lower_refusal first second }
{
    let m = refusal_number(first);
    let n = refusal_number(second);
    if n == 0 {
        return first;
    }
    if m == 0 {
        return second;
    }
    if m <= n {
        return first;
    }
    second
}
