// What reading and writing a sheet gives, and the reading of a line and of four in a row. What the bytes of a sheet mean is in
// specs/.
#![tactic(auto)]

ghost use Rattle.text_words.specs.code.ShortText.{Sized};
ghost use Rattle.sheet.specs.code.Lines.{LineOf, FourOf};

use set_params::Params;
use set_refusal::Refusal;
use text_words::Short;

// What reading a sheet gives.
#[derive(Clone, Copy)]
pub struct Reading {
    pub refusal: Refusal,
    pub set: Params,
}

// What writing a sheet gives.
#[derive(Clone, Copy)]
pub struct Written {
    pub refusal: Refusal,
    pub len: usize,
}

// The number of the line at a place, from its key and the `=` after it.
pub fn line_at(bytes: &[u8], at: usize, head: Short) -> Option<(i64, usize)>
    requires { Sized head }
    ensures { LineOf bytes.now at head result }
{
    if !text_tokens::short_at(bytes, at, head) {
        return None;
    }
    let (v, after_number) = text_numbers::number_at(bytes, at + head.len)?;
    if !text_tokens::byte_at(bytes, after_number, b'\n') {
        return None;
    }
    Some((v, after_number + 1))
}

// The four lines at a place, from their keys, each with the `=` after it.
pub fn four_at(
    bytes: &[u8],
    at: usize,
    h0: Short,
    h1: Short,
    h2: Short,
    h3: Short,
) -> Option<([i64; 4], usize)>
    requires { (Sized h0) × (Sized h1) × (Sized h2) × (Sized h3) }
    ensures { FourOf bytes.now at h0 h1 h2 h3 result }
{
    let (v0, second) = line_at(bytes, at, h0)?;
    let (v1, third) = line_at(bytes, second, h1)?;
    let (v2, fourth) = line_at(bytes, third, h2)?;
    let (v3, next) = line_at(bytes, fourth, h3)?;
    Some(([v0, v1, v2, v3], next))
}
