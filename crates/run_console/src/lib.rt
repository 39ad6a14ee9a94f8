// What the programs share: the run of standard input on standard output.
#![tactic(auto)]

ghost use Rattle.std.specs.Prelude.{◌+◌, ◌*◌, ◌≤◌, length};
ghost use Rattle.run_line.specs.code.Sizes.{most_line};

use run::Program;
use run_line::MOST_LINE;
use sheet_reader::MOST_BYTES;
use std::io;
use std::io::{Eprint, Print};

// Reads standard input into the bytes, and prints its run out of a buffer that has room for any.
fn answer_in<R: io::Input + Print + Eprint>(
    rt: &R,
    program: Program,
    bytes: &mut [u8],
    out: &mut [u8],
)
    requires { 5 * length bytes.old + most_line ≤ length out.old }
{
    let Some(len) = run_streams::read_all(rt, bytes) else {
        return;
    };
    let end = run::put_run(program, &bytes[..len], out);
    run_streams::write_all(rt, &out[..end]);
}

// Answers standard input as the program does. One byte more than the longest input is read, so that one too many is seen.
pub fn answer<R: io::Input + Print + Eprint>(rt: &R, program: Program) {
    let mut space = [0u8; MOST_BYTES + 1];
    let mut room = [0u8; 5 * (MOST_BYTES + 1) + MOST_LINE];
    let bytes: &mut [u8] = &mut space;
    let out: &mut [u8] = &mut room;
    answer_in(rt, program, bytes, out);
}
