// Reading the numbers of which a sheet and a query line are made. Their digits are counted and worked a word of eight bytes at a
// time.
#![tactic(auto)]

ghost use Rattle.std.specs.Prelude.{◌≡◌, ◌≤◌, ◌<◌, map, length, get_or};
ghost use Rattle.text_words.specs.code.Word.{word_bytes, bytes_in, word_of, Below};
ghost use Rattle.text_tokens.specs.Number.{digits};
ghost use Rattle.text_tokens.specs.code.Places.{number_at};
ghost use Rattle.text_tokens.specs.code.Unsigned.{DigitsRead, unsigned_at, minuses};
ghost use Rattle.text_numbers.specs.code.DigitWord.{Worked};
ghost use Rattle.text_numbers.specs.code.Parts.{mark, numeral};

use text_tokens::Digits;

// The top bit of each byte that is no digit, and no other bit. With 0x46 added the low seven bits reach the top bit
// after `9`, and with 0x50 from `0` on; no sum leaves its byte.
fn marks(word: u64) -> u64
    ensures { result ≡ word_of (map mark (bytes_in word_bytes word)) }
{
    let low = word & 0x7F7F_7F7F_7F7F_7F7F;
    let past_nine = low + 0x4646_4646_4646_4646;
    let from_zero = low + 0x5050_5050_5050_5050;
    (past_nine | word | (from_zero ^ 0xFFFF_FFFF_FFFF_FFFF)) & 0x8080_8080_8080_8080
}

// How many digits there are at the front: eight bits below the first mark for each.
fn digit_count(word: u64) -> usize
    ensures { result ≡ length (digits (bytes_in word_bytes word)) }
{
    (u64::trailing_zeros(marks(word)) / 8) as usize
}

// The number of eight digits, the value of each in a byte, the first lowest: neighbours are joined three times, to
// twos, to fours and to all eight.
fn packed(t: u64) -> u64
    requires { Below 10 (bytes_in word_bytes t) }
    ensures { result ≡ numeral 10 0 (bytes_in word_bytes t) }
{
    let twos = (t & 0x00FF_00FF_00FF_00FF) * 10 + ((t >> 8) & 0x00FF_00FF_00FF_00FF);
    let fours = (twos & 0x0000_FFFF_0000_FFFF) * 100 + ((twos >> 16) & 0x0000_FFFF_0000_FFFF);
    (fours & 0x0000_0000_FFFF_FFFF) * 10000 + ((fours >> 32) & 0x0000_0000_FFFF_FFFF)
}

// The number that the first n digits stand for: they are shifted to the top of the word, after digits 0.
fn value_of(word: u64, n: usize) -> u64
    requires { n ≤ length (digits (bytes_in word_bytes word)) }
    ensures { Worked word n result }
{
    if n == 0 {
        return 0;
    }
    packed((word << (64 - 8 * n)) & 0x0F0F_0F0F_0F0F_0F0F)
}

// The digits from a place on, at most 16: one more than a number has, so that one too many is seen. They are counted and worked
// a word at a time, or byte by byte where no two words are left.
fn digits_at(bytes: &[u8], at: usize) -> Digits
    ensures { DigitsRead bytes.now at result }
{
    if text_tokens::room(bytes.len(), at) < 2 * text_words::BYTES {
        return text_tokens::digits_walk(bytes, at);
    }
    let first = text_words::word_at(bytes, at);
    let count = digit_count(first);
    if count < text_words::BYTES {
        let value = value_of(first, count);
        return Digits { count, value };
    }
    let more = digit_count(text_words::word_at(bytes, at + text_words::BYTES));
    let before = value_of(first, more);
    let last = value_of(text_words::word_at(bytes, at + more), text_words::BYTES);
    Digits {
        count: text_words::BYTES + more,
        value: before * 100_000_000 + last,
    }
}

// The number without a sign at a place.
fn unsigned_at(bytes: &[u8], at: usize) -> Option<(u64, usize)>
    ensures { result ≡ unsigned_at bytes.now at }
{
    let run = digits_at(bytes, at);
    if run.count == 0 || 15 < run.count {
        return None;
    }
    if 1 < run.count && bytes[at] == b'0' {
        return None;
    }
    Some((run.value, at + run.count))
}

// 1 where a minus stands at a place, and else 0: a count and no branch, since either sign is as likely.
fn minus_at(bytes: &[u8], at: usize) -> usize
    requires { at < length bytes.now }
    ensures { result ≡ minuses (get_or bytes.now at 0) }
{
    usize::from(bytes[at] == b'-')
}

// The number at a place.
pub fn number_at(bytes: &[u8], at: usize) -> Option<(i64, usize)>
    ensures { result ≡ number_at bytes.now at }
{
    if bytes.len() <= at {
        return None;
    }
    let minus = minus_at(bytes, at);
    let (value, next) = unsigned_at(bytes, at + minus)?;
    if minus == 0 {
        return Some((value as i64, next));
    }
    if value == 0 {
        return None;
    }
    Some((-(value as i64), next))
}
