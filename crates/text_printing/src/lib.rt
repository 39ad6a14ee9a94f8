// Writing the texts and numbers of which a sheet is made into a buffer that the caller lends.
#![tactic(auto)]

ghost use Rattle.std.specs.Prelude.{◌≡◌, ◌+◌, ◌^◌, ◌≤◌, ◌<◌, nat_abs, length};
ghost use Rattle.text_tokens.specs.Number.{unsigned_text, number_text, most_digits};
ghost use Rattle.text_printing.specs.code.Overwritten.{overwritten};

// The distance of a number from 0.
fn magnitude(v: i64) -> u64
    requires { nat_abs v < 10 ^ most_digits }
    ensures { result ≡ nat_abs v }
{
    v.unsigned_abs()
}

// How many decimal digits a number has.
fn digit_count(n: u64) -> usize
    requires { n < 10 ^ most_digits }
    ensures { result ≡ length (unsigned_text n) }
{
    // A `while`: no range says how often a number can be divided by ten.
    let mut rest = n;
    let mut count = 1;
    while 10 <= rest {
        rest = rest / 10;
        count += 1;
    }
    count
}

// How many bytes a number's text has.
pub fn number_len(v: i64) -> usize
    requires { nat_abs v < 10 ^ most_digits }
    ensures { result ≡ length (number_text v) }
{
    let count = digit_count(magnitude(v));
    if v < 0 {
        return count + 1;
    }
    count
}

// Writes a text from a place on; the place after it.
pub fn put_text(buffer: &mut [u8], at: usize, text: &[u8]) -> usize
    requires { at + length text.now ≤ length buffer.old }
    ensures { (result ≡ at + length text.now) × (buffer.new ≡ overwritten buffer.old at text.now) }
{
    // byte by byte: `copy_from_slice` wants `memmove` from outside, which the library for C does without
    for (i, byte) in text.iter().enumerate() {
        buffer[at + i] = *byte;
    }
    at + text.len()
}

// Writes the decimal digits of a number from a place on, the last digit first; the place after them.
pub fn put_digits(buffer: &mut [u8], at: usize, n: u64) -> usize
    requires { (n < 10 ^ most_digits) × (at + length (unsigned_text n) ≤ length buffer.old) }
    ensures { (result ≡ at + length (unsigned_text n)) × (buffer.new ≡ overwritten buffer.old at (unsigned_text n)) }
{
    let end = at + digit_count(n);
    let mut place = end - 1;
    // A `while` here too: the digits end where less than ten is left.
    let mut rest = n;
    while 10 <= rest {
        buffer[place] = b'0' + (rest % 10) as u8;
        place -= 1;
        rest = rest / 10;
    }
    buffer[place] = b'0' + rest as u8;
    end
}

// Writes a number from a place on; the place after it.
pub fn put_number(buffer: &mut [u8], at: usize, v: i64) -> usize
    requires { (nat_abs v < 10 ^ most_digits) × (at + length (number_text v) ≤ length buffer.old) }
    ensures { (result ≡ at + length (number_text v)) × (buffer.new ≡ overwritten buffer.old at (number_text v)) }
{
    let n = magnitude(v);
    if v < 0 {
        buffer[at] = b'-';
        return put_digits(buffer, at + 1, n);
    }
    put_digits(buffer, at, n)
}
