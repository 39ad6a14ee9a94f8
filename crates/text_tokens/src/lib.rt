// Reading the texts of which a sheet and a query line are made, a word at a time and byte by byte, and digits byte by byte.
#![tactic(auto)]

ghost use Rattle.std.specs.Prelude.{◌≡◌, [], ◌∷◌, ◌-◌};
ghost use Rattle.text_tokens.specs.code.Places.{text_at};
ghost use Rattle.text_tokens.specs.code.Unsigned.{DigitsRead};
ghost use Rattle.text_words.specs.code.ShortText.{Sized, text_of};

use text_words::Short;

// Digits that were read: how many, and the number that they stand for.
#[derive(Clone, Copy)]
pub struct Digits {
    pub count: usize,
    pub value: u64,
}

// How many bytes there are from a place on.
pub fn room(len: usize, at: usize) -> usize
    ensures { result ≡ len - at }
{
    len.saturating_sub(at)
}

// Whether the bytes from a place on begin with the text, byte by byte.
fn text_walk(bytes: &[u8], at: usize, text: &[u8]) -> bool
    ensures { result ≡ text_at bytes.now at text.now }
{
    if room(bytes.len(), at) < text.len() {
        return false;
    }
    for (i, byte) in text.iter().enumerate() {
        if bytes[at + i] != *byte {
            return false;
        }
    }
    true
}

// Whether the bytes from a place on begin with the text: a word at a time, and byte by byte what is left of it.
pub fn text_at(bytes: &[u8], at: usize, text: &[u8]) -> bool
    ensures { result ≡ text_at bytes.now at text.now }
{
    if room(bytes.len(), at) < text.len() {
        return false;
    }
    // A `while`: a `for` over chunks of eight bytes would count their places in `bytes` beside them.
    let mut done = 0;
    while text_words::BYTES <= text.len() - done {
        let here = text_words::word_at(bytes, at + done);
        if !text_words::same_bytes(here, text_words::word_at(text, done), text_words::BYTES) {
            return false;
        }
        done += text_words::BYTES;
    }
    text_walk(bytes, at + done, &text[done..])
}

// Whether the bytes from a place on begin with a short text: by one word, or byte by byte where no whole word is left.
pub fn short_at(bytes: &[u8], at: usize, text: Short) -> bool
    requires { Sized text }
    ensures { result ≡ text_at bytes.now at (text_of text) }
{
    if room(bytes.len(), at) < text_words::BYTES {
        let apart = text_words::bytes_of(text.word);
        let len = text.len;
        return text_walk(bytes, at, &apart[..len]);
    }
    text_words::same_bytes(text_words::word_at(bytes, at), text.word, text.len)
}

// Whether a byte stands at a place.
pub fn byte_at(bytes: &[u8], at: usize, byte: u8) -> bool
    ensures { result ≡ text_at bytes.now at (byte ∷ []) }
{
    bytes.get(at) == Some(&byte)
}

// The digits from a place on, byte by byte, at most 16: one more than a number has, so that one too many is seen.
pub fn digits_walk(bytes: &[u8], at: usize) -> Digits
    ensures { DigitsRead bytes.now at result }
{
    let most = room(bytes.len(), at).min(16);
    let mut value: u64 = 0;
    for count in 0..most {
        let digit = bytes[at + count];
        if !digit.is_ascii_digit() {
            return Digits { count, value };
        }
        value = value * 10 + u64::from(digit - b'0');
    }
    Digits { count: most, value }
}
