// Prints the exponential's two ends at the stored places, a line each: z, the lower end, the upper end.
#![tactic(auto)]

mod cases;

use cases::CASES;
use number_exponential::GridUnit;
use std::io;
use std::io::Print;

fn print_case<R: Print>(rt: &R, z: u64) -> io::Result<()> {
    let lower = number_exp_ends::exp_lower(GridUnit::Coarse, z);
    let upper = number_exp_ends::exp_upper(GridUnit::Coarse, z);
    println!(rt; "{z} {lower} {upper}")
}

fn main(rt: HostRuntime) -> io::Result<()> {
    for z in CASES {
        print_case(&rt, z)?;
    }
    Ok(())
}
