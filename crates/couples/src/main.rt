// The couples' program: two sheets and couples' query lines on standard input, each query with its ends, their unit and its figure, or
// its refusal, on standard output.
#![tactic(auto)]

use run::Program;
use run_line::Mode;

fn main(rt: HostRuntime) {
    run_console::answer(&rt, Program::Lines(Mode::Couples));
}
