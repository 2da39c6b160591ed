#![tactic(auto)]
// Reads a sheet on standard input and writes the line Y where it is accepted, or the line of its refusal.
use ringkit::bytes_taken;
use std::io::{self, Read};

fn main(rt: HostRuntime) -> io::Result<()> {
    let mut sheet = Vec::new(rt.alloc());
    rt.reader().take(bytes_taken()).read_to_end(&mut sheet)?;
    match ringkit::ringkit_check(&sheet) {
        Ok(()) => println!(rt; "Y"),
        Err(refusal) => println!(rt; "{refusal}"),
    }
}
