// The quote program: a sheet and query lines on standard input, each query with its figure or refusal on standard output.
#![tactic(auto)]

use run::Program;
use run_line::Mode;

fn main(rt: HostRuntime) {
    run_console::answer(&rt, Program::Lines(Mode::Quotes(false)));
}
