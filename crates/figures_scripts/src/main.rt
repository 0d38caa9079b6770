// Prints scripts, plays that are refused, plays that stop at each number of writes, and scripts that are played again after a stop.
#![tactic(auto)]

mod demand_lines;
mod restart_lines;
mod script_lines;

use std::io;

fn main(rt: HostRuntime) -> io::Result<()> {
    let out = rt.stdout();
    script_lines::print_all(out)?;
    demand_lines::print_all(out)?;
    restart_lines::print_all(out)
}
