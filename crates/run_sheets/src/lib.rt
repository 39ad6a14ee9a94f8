// Reads the sheets at the front of an input: one, or two that stand one after the other.
#![tactic(auto)]

ghost use Rattle.std.specs.Prelude.{◌≡◌, cond};
ghost use Rattle.sheet_reader.specs.Front.{sheet_of, sheet_end};
ghost use Rattle.run_sheets.specs.Front.{in_turn, by_number, stopped, front_of};
ghost use Rattle.run_sheets.specs.code.Two.{two_by};

use set_params::Params;
use set_refusal::Refusal;
use sheet::Reading;
use sheet_reader::MOST_BYTES;

// What stands at the front of an input: one sheet, or two. Of two that are both refused, the first is named in turn, and by
// number the one with the lower number.
#[derive(Clone, Copy)]
pub enum Sheets {
    One,
    InTurn,
    ByNumber,
}

// The sets at the front of an input and the place after them; where it is refused, the number of the sheet that is, or 0
// where no sheet is named.
#[derive(Clone, Copy)]
pub struct Front {
    pub refusal: Refusal,
    pub named: u64,
    pub first: Params,
    pub second: Params,
    pub next: usize,
}

// A front that is refused.
fn stop(named: u64, refusal: Refusal, next: usize) -> Front
    ensures { result ≡ stopped named refusal next }
{
    let none = set_params::blank();
    Front {
        refusal,
        named,
        first: none,
        second: none,
        next,
    }
}

// Whether the second sheet's answer is given, by the numbers of the two: 0 is no refusal.
fn second_given(numbered: bool, first: u8, second: u8) -> bool
    ensures { result ≡ cond numbered (by_number first second) (in_turn first second) }
{
    if first == 0 {
        return true;
    }
    if !numbered {
        return false;
    }
    if second == 0 {
        return false;
    }
    second < first
}

// Reads the second of two sheets, behind the first.
fn read_second(numbered: bool, input: &[u8], one: Reading, end: usize) -> Front
    requires { (one ≡ sheet_of input.now) × (end ≡ sheet_end input.now) }
    ensures { result ≡ two_by numbered input.now }
{
    let rest = &input[end..];
    let other = sheet_reader::read_first(rest);
    let len = other.next;
    let sheet = other.sheet;
    let refusal = sheet.refusal;
    let second = sheet.set;
    let refused = one.refusal;
    let first = one.set;
    let number = set_refusal::refusal_number(refused);
    if !second_given(numbered, number, set_refusal::refusal_number(refusal)) {
        return stop(1, refused, end);
    }
    Front {
        refusal,
        named: 2,
        first,
        second,
        next: end + len,
    }
}

// Reads the sheets at the front of an input.
pub fn read_front(sheets: Sheets, input: &[u8]) -> Front
    ensures { result ≡ front_of sheets input.now }
{
    let one = sheet_reader::read_first(input);
    let end = one.next;
    if MOST_BYTES < input.len() {
        return stop(0, Refusal::Malformed, end);
    }
    let sheet = one.sheet;
    match sheets {
        Sheets::One => {
            let refusal = sheet.refusal;
            let first = sheet.set;
            Front {
                refusal,
                named: 0,
                first,
                second: first,
                next: end,
            }
        }
        Sheets::InTurn => read_second(false, input, sheet, end),
        Sheets::ByNumber => read_second(true, input, sheet, end),
    }
}
