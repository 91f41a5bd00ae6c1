// Writes a chip image of four blocks to standard output: a format's note, a directory /cal, a file
// /cal/arc of three bytes, and a deletion whose program lost power after nine bytes.

#![tactic(auto)]

use flash::{Fuse, IMAGE_BLOCK_BYTES, ImageFlash};
use images::{torn_last_page, write};
use std::io::Write;

const IMAGE_BYTES: usize = 4 * IMAGE_BLOCK_BYTES;

fn main(rt: HostRuntime) -> anyhow::Result<()> {
    let mut image = vec![in rt.alloc(); 0xffu8; IMAGE_BYTES]?;
    let mut flash = ImageFlash::new(&mut image, Fuse::Intact);
    write(&mut flash, &torn_last_page())?;
    rt.stdout().write_all(flash.bytes())?;
    Ok(())
}
