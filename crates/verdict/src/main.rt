// The verdict program: a sheet, a year's line and a column on standard input, the verdict or the refusal on standard output.
#![tactic(auto)]

use run::Program;

fn main(rt: HostRuntime) {
    run_console::answer(&rt, Program::Verdict);
}
