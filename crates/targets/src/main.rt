// The targets' program: a sheet and targets' lines on standard input, each with the year in which the period expectancy reaches the
// target, or its refusal, on standard output.
#![tactic(auto)]

use run::Program;
use run_line::Mode;

fn main(rt: HostRuntime) {
    run_console::answer(&rt, Program::Lines(Mode::Targets));
}
