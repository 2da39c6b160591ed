#![tactic(auto)]
// Reads a table on standard input and writes its sheet, or the line of its refusal.
use ringkit::{bytes_taken, sheet_bytes};
use std::io::{self, Read, Write};

// Plans in memory that is lent, which has room for every sheet.
fn plan(rt: &impl Print, table: &[u8], sheet: &mut [u8]) -> io::Result<()> {
    match ringkit::ringkit_route(table, sheet) {
        Ok(length) => io::writer(rt).write_all(&sheet[..length]),
        Err(refusal) => rt.println(format_args!("{refusal}")),
    }
}

fn main(rt: HostRuntime) -> io::Result<()> {
    let mut table = Vec::new(rt.alloc());
    rt.reader().take(bytes_taken()).read_to_end(&mut table)?;
    let mut sheet = vec![in rt.alloc(); 0u8; sheet_bytes()]?;
    plan(&rt, &table, &mut sheet)
}
