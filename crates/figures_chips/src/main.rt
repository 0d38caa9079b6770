// Prints the rows of the cards, and what the calls on an image answer.
#![tactic(auto)]

mod banks;
mod bus;
mod identity_bits;
mod image_calls;
mod initialization;
mod rows;

use std::io;

fn main(rt: HostRuntime) -> io::Result<()> {
    let out = rt.stdout();
    rows::print_all(out)?;
    image_calls::print_all(out)?;
    image_calls::print_stored(out)?;
    banks::print_all(out)?;
    initialization::print_all(out)?;
    identity_bits::print_all(out)
}
