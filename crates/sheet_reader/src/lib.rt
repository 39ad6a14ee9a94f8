// Reads a parameter sheet.
#![tactic(auto)]

ghost use Rattle.std.specs.Prelude.{◌≡◌, [], drop};
ghost use Rattle.text_tokens.specs.Text.{taken};
ghost use Rattle.sheet.specs.Sheet.{sheet_lines, read_front, refused, reading_of, read_sheet};
ghost use Rattle.sheet_set.specs.code.Ages.{set_read};
ghost use Rattle.sheet_reader.specs.Front.{table_at, sheet_of, sheet_end};
ghost use Rattle.sheet_reader.specs.code.Read.{from_sex};

use set_params::{Params, Sex, Table};
use set_refusal::Refusal;
use sheet::Reading;
use sheet_set::SetRead;

// The longest input that is read.
pub const MOST_BYTES: usize = 65_536;

// The bytes of a sheet's first line, by its table, and of its second.
const AG2014_BYTES: usize = 13;

const LILEE_BYTES: usize = 12;

const SEX_BYTES: usize = 6;

// The lines of a sheet, by its table.
const AG2014_LINES: usize = 370;

const LILEE_LINES: usize = 372;

// The sheet that begins an input, and the place after it.
#[derive(Clone, Copy)]
pub struct First {
    pub sheet: Reading,
    pub next: usize,
}

// What is handed back for a sheet that is refused.
fn refused(refusal: Refusal) -> Reading
    ensures { result ≡ refused refusal }
{
    Reading {
        refusal,
        set: set_params::blank(),
    }
}

// The reading of a whole sheet with this set.
fn reading_of(set: Params) -> Reading
    ensures { result ≡ reading_of (taken set []) }
{
    if !set_limits::in_limits(set) {
        return refused(Refusal::OutOfLimits);
    }
    Reading {
        refusal: Refusal::Accepted,
        set,
    }
}

// A sheet of the table, from its second line on, at a place: its set, and the place after it.
fn from_sex(bytes: &[u8], at: usize, table: Table) -> Option<SetRead>
    ensures { set_read bytes.now result ≡ from_sex table (drop at bytes.now) }
{
    if text_tokens::text_at(bytes, at, b"sex=M\n") {
        return sheet_set::set_at(bytes, at + SEX_BYTES, table, Sex::M);
    }
    if text_tokens::text_at(bytes, at, b"sex=F\n") {
        return sheet_set::set_at(bytes, at + SEX_BYTES, table, Sex::F);
    }
    None
}

// The sheet at the front of the bytes, and the place after it.
fn front(bytes: &[u8]) -> Option<SetRead>
    ensures { set_read bytes.now result ≡ read_front bytes.now }
{
    if text_tokens::text_at(bytes, 0, b"table=AG2014\n") {
        return from_sex(bytes, AG2014_BYTES, Table::Ag2014);
    }
    if text_tokens::text_at(bytes, 0, b"table=LILEE\n") {
        return from_sex(bytes, LILEE_BYTES, Table::LiLee);
    }
    None
}

// How many lines the sheet at the front of the bytes has.
fn line_count(bytes: &[u8]) -> usize
    ensures { result ≡ sheet_lines (table_at bytes.now) }
{
    if text_tokens::text_at(bytes, 0, b"table=LILEE\n") {
        return LILEE_LINES;
    }
    AG2014_LINES
}

// The set that the bytes stand for, or the refusal, for any bytes.
pub fn read(bytes: &[u8]) -> Reading
    ensures { result ≡ read_sheet bytes.now }
{
    if MOST_BYTES < bytes.len() {
        return refused(Refusal::Malformed);
    }
    match front(bytes) {
        Some(SetRead { set, next }) if bytes.len() <= next => reading_of(set),
        _ => refused(Refusal::Malformed),
    }
}

// The sheet at the front of the bytes, which others may follow, and the place after it. It is read where it stands; only where
// there is none are its lines counted.
pub fn read_first(bytes: &[u8]) -> First
    ensures { (result.sheet ≡ sheet_of bytes.now) × (result.next ≡ sheet_end bytes.now) }
{
    let Some(SetRead { set, next }) = front(bytes) else {
        return First {
            sheet: refused(Refusal::Malformed),
            next: text_lines::lines_end(bytes, line_count(bytes)),
        };
    };
    First {
        sheet: reading_of(set),
        next: next.min(bytes.len()),
    }
}
