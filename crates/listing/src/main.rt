// The listing program: the blocks of the page at base 0 that standard input gives, in the Rust's reading.
#![tactic(auto)]

use std::io;

fn main(rt: HostRuntime) -> io::Result<()> {
    lines::list_input(&rt, 0)
}
