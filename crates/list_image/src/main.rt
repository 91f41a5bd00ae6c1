// Reads a chip image from standard input and prints a line for each of its files and directories, or
// the number of the refusal.

#![tactic(auto)]

use flash::DumpFlash;
use listing::{LISTING_BYTES, put_answer};
use std::io::{Read, Write};

fn main(rt: HostRuntime) -> anyhow::Result<()> {
    let mut image = Vec::new(rt.alloc());
    rt.stdin().read_to_end(&mut image)?;
    let mut text = [0; LISTING_BYTES];
    let end = put_answer(&DumpFlash::new(&image), &mut text);
    rt.stdout().write_all(&text[0..end])?;
    Ok(())
}
