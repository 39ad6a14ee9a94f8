// Words of eight bytes: read at a place of a slice, compared and taken apart; and texts of at most eight bytes held as words.
#![tactic(auto)]

ghost use Rattle.std.specs.Prelude.{◌≡◌, [], ◌∷◌, ◌++◌, ◌+◌, ◌<◌, ◌≤◌, length, take, drop};
ghost use Rattle.text_words.specs.code.Word.{word_bytes, bytes_in};
ghost use Rattle.text_words.specs.code.ShortText.{Holds, Joins, Tells, text_of};

// Bytes of a word.
pub const BYTES: usize = 8;

// A text of at most eight bytes: its bytes as a word, the first lowest, and how many they are.
#[derive(Clone, Copy)]
pub struct Short {
    pub word: u64,
    pub len: usize,
}

// The eight bytes at a place as a word, which the compiler makes one load nearly everywhere.
pub fn word_at(bytes: &[u8], at: usize) -> u64
    requires { at + word_bytes ≤ length bytes.now }
    ensures { bytes_in word_bytes result ≡ take word_bytes (drop at bytes.now) }
{
    u64::from_le_bytes([
        bytes[at],
        bytes[at + 1],
        bytes[at + 2],
        bytes[at + 3],
        bytes[at + 4],
        bytes[at + 5],
        bytes[at + 6],
        bytes[at + 7],
    ])
}

// Whether the first n bytes of two words are the same.
pub fn same_bytes(w: u64, v: u64, n: usize) -> bool
    requires { (0 < n) × (n ≤ word_bytes) }
    ensures { Tells result (bytes_in n w ≡ bytes_in n v) }
{
    let shift = 64 - 8 * n;
    w << shift == v << shift
}

// The eight bytes of a word.
pub fn bytes_of(word: u64) -> [u8; 8]
    ensures { result ≡ bytes_in word_bytes word }
{
    word.to_le_bytes()
}

// The short texts of two and of three bytes.
pub fn two(a: u8, b: u8) -> Short
    ensures { Holds result (a ∷ b ∷ []) }
{
    Short {
        word: u64::from(a) + u64::from(b) * 256,
        len: 2,
    }
}

pub fn three(a: u8, b: u8, c: u8) -> Short
    ensures { Holds result (a ∷ b ∷ c ∷ []) }
{
    Short {
        word: u64::from(a) + u64::from(b) * 256 + u64::from(c) * 65_536,
        len: 3,
    }
}

// One short text and then another.
pub fn joined(s: Short, t: Short) -> Short
    requires { Joins s t }
    ensures { Holds result (text_of s ++ text_of t) }
{
    Short {
        word: (t.word << (8 * s.len)) + s.word,
        len: s.len + t.len,
    }
}
