// A published column of q for one year, 121 lines `age=0 q=0.00312` upward from age 0, read from its bytes in one pass.
#![tactic(auto)]

ghost use Rattle.std.specs.Prelude.{◌≡◌, ◌≤◌, ◌<◌, drop};
ghost use Rattle.text_tokens.specs.Number.{read_digits};
ghost use Rattle.run_column_text.specs.Column.{column_lines, decimals, read_q, read_entry, column_of};
ghost use Rattle.run_column_text.specs.code.Code.{unsigned_read, entry_read, list_read, column_read, with_row};

use model_closure::LAST_CLOSED;

// A line for each age.
pub const COLUMN_LINES: usize = LAST_CLOSED + 1;

// Digits of q after the point.
const DECIMALS: usize = 5;

// What a line says: an age, and its q in steps of 0.00001.
#[derive(Clone, Copy)]
pub struct Entry {
    pub age: i64,
    pub steps: u64,
}

// The number that so many digits at a place stand for, after those of a first digit, and the place after them.
fn digits_at(bytes: &[u8], at: usize, count: usize, first: u64) -> Option<(u64, usize)>
    requires { (count ≤ decimals) × (first < 10) }
    ensures { unsigned_read bytes.now result ≡ read_digits first count (drop at bytes.now) }
{
    let mut value = first;
    let mut next = at;
    for _done in 0..count {
        if bytes.len() <= next {
            return None;
        }
        let digit = bytes[next];
        if digit < b'0' || b'9' < digit {
            return None;
        }
        value = value * 10 + (digit - b'0') as u64;
        next += 1;
    }
    Some((value, next))
}

// The steps of the q at a place, and the place after it.
pub fn q_at(bytes: &[u8], at: usize) -> Option<(u64, usize)>
    ensures { unsigned_read bytes.now result ≡ read_q (drop at bytes.now) }
{
    let (first, after) = digits_at(bytes, at, 1, 0)?;
    if !text_tokens::text_at(bytes, after, b".") {
        return None;
    }
    digits_at(bytes, after + 1, DECIMALS, first)
}

// The entry of a line.
pub fn entry_of(line: &[u8]) -> Option<Entry>
    ensures { entry_read result ≡ read_entry line.now }
{
    let (age, after_age) = run_query::field_at(line, 0, b"age=")?;
    if !text_tokens::text_at(line, after_age, b" q=") {
        return None;
    }
    let (steps, after_q) = q_at(line, after_age + 3)?;
    if !run_query::ends_at(line, after_q) {
        return None;
    }
    Some(Entry { age, steps })
}

// Puts the steps of a line of age x into their place; false where the line is malformed or of another age.
fn put_row(steps: &mut [u64; COLUMN_LINES], x: usize, line: &[u8]) -> bool
    requires { x < column_lines }
    ensures { list_read result steps.new ≡ with_row steps.old x line.now }
{
    let Some(entry) = entry_of(line) else {
        return false;
    };
    if entry.age != x as i64 {
        return false;
    }
    steps[x] = entry.steps;
    true
}

// The column that all the bytes are, its steps of q by age: each line's age is its place.
pub fn column_of(bytes: &[u8]) -> Option<[u64; COLUMN_LINES]>
    ensures { column_read result ≡ column_of bytes.now }
{
    let mut steps = [0u64; COLUMN_LINES];
    let mut at = 0;
    for x in 0..COLUMN_LINES {
        let end = text_lines::line_end(bytes, at);
        if !put_row(&mut steps, x, &bytes[at..end]) {
            return None;
        }
        at = end;
    }
    if at < bytes.len() {
        return None;
    }
    Some(steps)
}
