// The ends program: a sheet and query lines on standard input, each query with its two ends, their unit and its figure, or its
// refusal, on standard output.
#![tactic(auto)]

use run::Program;
use run_line::Mode;

fn main(rt: HostRuntime) {
    run_console::answer(&rt, Program::Lines(Mode::Quotes(true)));
}
