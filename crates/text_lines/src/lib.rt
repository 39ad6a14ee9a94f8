// Bytes cut into lines: where a line ends, and where so many lines end.
#![tactic(auto)]

ghost use Rattle.std.specs.Prelude.{◌≡◌, ◌+◌, ◌≤◌, length, drop, nat_eq, position};
ghost use Rattle.text_lines.specs.Lines.{first_line, first_lines};

// Where the first line feed stands.
fn feed_in(bytes: &[u8]) -> Option<usize>
    ensures { result ≡ position (λ b. nat_eq b 10) bytes.now }
{
    bytes.iter().position(|byte| *byte == b'\n')
}

// The place after the line that begins at a place.
pub fn line_end(bytes: &[u8], at: usize) -> usize
    requires { at ≤ length bytes.now }
    ensures { result ≡ at + length (first_line (drop at bytes.now)) }
{
    match feed_in(&bytes[at..]) {
        Some(i) => at + i + 1,
        None => bytes.len(),
    }
}

// The place after the first lines, so many.
pub fn lines_end(bytes: &[u8], count: usize) -> usize
    ensures { result ≡ length (first_lines count bytes.now) }
{
    let mut at = 0;
    for _ in 0..count {
        at = line_end(bytes, at);
    }
    at
}
