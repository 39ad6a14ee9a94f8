// The comparison program: two sheets and query lines on standard input, each query with both figures and what the ends tell of
// the values, or its refusal, on standard output.
#![tactic(auto)]

use run::Program;
use run_line::Mode;

fn main(rt: HostRuntime) {
    run_console::answer(&rt, Program::Lines(Mode::Compare));
}
