// Standard input read to its end, and standard output written whole. Where that fails, one line on standard error says why.
#![tactic(auto)]

ghost use Rattle.std.specs.Prelude.{◌≤◌, length, IfOk};
ghost use Rattle.run_streams.specs.code.Streams.{ReadIn};

use std::io;
use std::io::{Eprint, ErrorKind, Print, Read, Write};

// How often one read or write is tried where signals interrupt it.
const TRIES: usize = 1000;

// Writes an error's words into the bytes; how many it wrote.
fn told(bytes: &mut [u8], why: io::Error) -> usize
    ensures { result ≤ length bytes.old }
{
    let room = bytes.len();
    let mut left = bytes;
    let _ = write!(left, "{why}");
    room - left.len().min(room)
}

// How many bytes stand before the number that the library puts behind the system's words.
fn words(bytes: &[u8]) -> usize
    ensures { result ≤ length bytes.now }
{
    for at in 0..bytes.len() {
        if bytes[at..].starts_with(b" (os error ") {
            return at;
        }
    }
    bytes.len()
}

// Says on standard error what failed and why. Where that fails too, nothing is left to be told.
fn complain<R: Eprint>(rt: &R, what: &str, why: io::Error) {
    let mut space = [0u8; 256];
    let len = told(&mut space, why);
    let end = words(&space[..len]);
    if let Ok(reason) = str::from_utf8(&space[..end]) {
        let _ = eprintln!(rt; "{what}: {reason}");
    }
}

// One read into the bytes.
fn read_some<R: io::Input>(rt: &R, bytes: &mut [u8]) -> io::Result<usize>
    ensures { IfOk result (λ n. n ≤ length bytes.new) }
{
    let mut input = rt.reader();
    for _ in 1..TRIES {
        let got = input.read(bytes);
        let Err(error) = got else {
            return got;
        };
        if error.kind() != ErrorKind::Interrupted {
            return got;
        }
    }
    input.read(bytes)
}

// Reads standard input to its end, or until the bytes are full: how many it read, or none where reading failed, which is told.
pub fn read_all<R: io::Input + Eprint>(rt: &R, bytes: &mut [u8]) -> Option<usize>
    ensures { ReadIn (length bytes.new) result }
{
    // no `for`: each turn moves `done` by as many bytes as were read
    let mut done = 0;
    while done < bytes.len() {
        match read_some(rt, &mut bytes[done..]) {
            Ok(more) => {
                if more == 0 {
                    return Some(done);
                }
                done += more;
            }
            Err(error) => {
                complain(rt, "reading standard input failed", error);
                return None;
            }
        }
    }
    Some(done)
}

// One write of the bytes; how many it wrote.
fn write_some<R: Print>(rt: &R, bytes: &[u8]) -> io::Result<usize>
    ensures { IfOk result (λ n. n ≤ length bytes.now) }
{
    let mut output = io::writer(rt);
    for _ in 1..TRIES {
        let put = output.write(bytes);
        let Err(error) = put else {
            return put;
        };
        if error.kind() != ErrorKind::Interrupted {
            return put;
        }
    }
    output.write(bytes)
}

// Writes all bytes to standard output.
pub fn write_all<R: Print + Eprint>(rt: &R, bytes: &[u8]) {
    // no `for`: each turn moves `done` by as many bytes as were written
    let mut done = 0;
    while done < bytes.len() {
        match write_some(rt, &bytes[done..]) {
            Ok(put) => {
                if put == 0 {
                    complain(
                        rt,
                        "writing standard output failed",
                        ErrorKind::WriteZero.into(),
                    );
                    return;
                }
                done += put;
            }
            Err(error) => {
                // a reader that is gone, as `head`, ends the run and is told to nobody
                if error.kind() != ErrorKind::BrokenPipe {
                    complain(rt, "writing standard output failed", error);
                }
                return;
            }
        }
    }
}
