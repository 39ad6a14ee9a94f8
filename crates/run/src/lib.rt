// The whole run of a program: an input to its output, written into a buffer that the caller lends.
#![tactic(auto)]

ghost use Rattle.std.specs.Prelude.{◌≡◌, ◌+◌, ◌*◌, ◌≤◌, ◌<◌, T, leb, length};
ghost use Rattle.set_limits.specs.InLimits.{in_limits};
ghost use Rattle.text_printing.specs.code.Put.{Put};
ghost use Rattle.run_line.specs.Line.{line_answer, longest_line};
ghost use Rattle.run.specs.Run.{answers_from};
ghost use Rattle.run.specs.Run.{text_answer, text_buffer};
ghost use Rattle.run.specs.Run.{sheets_by, refused_run, lines_run, run_of, run_room};

use run_line::Mode;
use run_sheets::Sheets;
use run_verdict_text::MOST_VERDICT;
use set_params::Params;
use set_refusal::Refusal;
use sheet::Written;

// What an input is read as: sheets and lines that are answered one by one, or a sheet and a column to be judged.
#[derive(Clone, Copy)]
pub enum Program {
    Lines(Mode),
    Verdict,
}

// The sheets that a program of lines takes.
fn sheets_by(mode: Mode) -> Sheets
    ensures { result ≡ sheets_by mode }
{
    match mode {
        Mode::Quotes(_) => Sheets::One,
        Mode::Compare => Sheets::InTurn,
        Mode::Couples => Sheets::ByNumber,
        Mode::Targets => Sheets::One,
    }
}

// Room for five bytes for each of the input's and for the longest line.
fn fits(room: usize, input: usize, longest: usize) -> bool
    ensures { result ≡ leb (5 * input + longest) room }
{
    if room < longest {
        return false;
    }
    input <= (room - longest) / 5
}

// Whether there is room for the run of any input of so many bytes.
fn has_room(program: Program, input: usize, room: usize) -> bool
    ensures { result ≡ leb (run_room program input) room }
{
    match program {
        Program::Lines(mode) => fits(room, input, run_line::longest_line(mode)),
        Program::Verdict => MOST_VERDICT <= room,
    }
}

// Writes the line of a refused front, with the number of the sheet where one is named; how long it is.
fn put_refused(out: &mut [u8], named: u64, refusal: Refusal) -> usize
    requires { (named < 10) × (14 ≤ length out.old) }
    ensures { Put out.old 0 (refused_run named refusal) out.new result }
{
    if named == 0 {
        return run_answer_text::put_refusal(out, 0, refusal);
    }
    let end = run_answer_text::put_field(out, 0, b"sheet=", named);
    run_answer_text::put_refused(out, end, refusal)
}

// Writes the answers to the lines from a place on; how long they are.
fn put_answers(
    mode: Mode,
    first: Params,
    second: Params,
    input: &[u8],
    at: usize,
    out: &mut [u8],
) -> usize
    requires { T (in_limits first) × T (in_limits second) × (at ≤ length input.now)
        × (5 * length input.now + longest_line mode ≤ length out.old) }
    ensures { Put out.old 0 (answers_from (line_answer mode first second) input.now at)
        out.new result }
{
    // no `for`: each turn moves `next` by a line's length, and no iterator over lines with their line feeds is at hand
    let mut next = at;
    let mut len = 0;
    while next < input.len() {
        let end = text_lines::line_end(input, next);
        len = run_line::put_line(out, len, mode, first, second, &input[next..end]);
        next = end;
    }
    len
}

// Writes the run of a program of lines into a buffer that has room for any; how long it is.
fn put_lines(mode: Mode, input: &[u8], out: &mut [u8]) -> usize
    requires { 5 * length input.now + longest_line mode ≤ length out.old }
    ensures { Put out.old 0 (lines_run mode input.now) out.new result }
{
    let sheets = sheets_by(mode);
    let front = run_sheets::read_front(sheets, input);
    let refusal = front.refusal;
    if set_refusal::refusal_number(refusal) != 0 {
        return put_refused(out, front.named, refusal);
    }
    let first = front.first;
    let second = front.second;
    put_answers(mode, first, second, input, front.next, out)
}

// Writes the whole run of an input into a buffer that has room for any; how long it is.
pub fn put_run(program: Program, input: &[u8], out: &mut [u8]) -> usize
    requires { run_room program (length input.now) ≤ length out.old }
    ensures { Put out.old 0 (run_of program input.now) out.new result }
{
    match program {
        Program::Lines(mode) => put_lines(mode, input, out),
        Program::Verdict => run_verdict::put_verdict(input, out),
    }
}

// The whole run of any input into any buffer: refused as short, a call leaves every byte as it was.
pub fn run(program: Program, input: &[u8], out: &mut [u8]) -> Written
    ensures { (result ≡ text_answer (run_room program (length input.now)) (run_of program input.now)
        (length out.old))
        × (out.new ≡ text_buffer (run_room program (length input.now)) (run_of program input.now)
        out.old) }
{
    if !has_room(program, input.len(), out.len()) {
        return Written {
            refusal: Refusal::BufferTooShort,
            len: 0,
        };
    }
    let len = put_run(program, input, out);
    Written {
        refusal: Refusal::Accepted,
        len,
    }
}
