// Reads dates, each a signed word of eight bytes, the lowest first, and writes for each a word in its place: 0 where it is no
// day, else its year, the days of the year and the days since 1 January, YYYYDDDddd.
#![tactic(auto)]

use std::io;
use std::io::{Eprint, Print};
use text_words::BYTES;

// Bytes that a run takes.
const ROOM: usize = 262_144;

// The largest signed word.
const LARGEST: u64 = 9_223_372_036_854_775_807;

// A word as a signed number, in two's complement.
fn signed(word: u64) -> i64 {
    if word <= LARGEST {
        return word as i64;
    }
    -1 - (18_446_744_073_709_551_615 - word) as i64
}

// The word of a date.
fn case_of(date: i64) -> u64 {
    if !quote_calendar::is_day(date) {
        return 0;
    }
    let year = quote_calendar::date_year(date);
    year * 1_000_000 + quote_calendar::year_days(year) * 1000 + quote_calendar::day_of_year(date)
}

// Each date's word in its place; what is left behind the last stays.
fn put_cases(bytes: &mut [u8]) {
    for word in bytes.chunks_exact_mut(BYTES) {
        let date = signed(text_words::word_at(word, 0));
        word.copy_from_slice(&text_words::bytes_of(case_of(date)));
    }
}

fn answer<R: io::Input + Print + Eprint>(rt: &R, bytes: &mut [u8]) {
    let Some(len) = run_streams::read_all(rt, bytes) else {
        return;
    };
    put_cases(bytes);
    run_streams::write_all(rt, &bytes[..len]);
}

fn main(rt: HostRuntime) {
    let mut space = [0u8; ROOM];
    let bytes: &mut [u8] = &mut space;
    answer(&rt, bytes);
}
