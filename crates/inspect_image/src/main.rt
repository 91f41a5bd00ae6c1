// Reads a chip image from standard input and prints what each of its blocks holds.

#![tactic(auto)]

ghost use Rattle.std.specs.Prelude.{true, IfOk, Ok};
ghost use Rattle.flash.specs.Image.{image_chip};
ghost use Rattle.inspect.specs.Counted.{Inspects};

use anyhow::anyhow;
use flash::{DumpFlash, ReadFlash, page_count};
use inspect::{Census, inspect_pages};
use std::io::Read;

// The pages from `first` up to `end`: a dump is always on, so only a page past its end is refused.
fn counted(dump: &DumpFlash, first: usize, end: usize) -> anyhow::Result<Census>
    ensures { IfOk result (λ census. Inspects (image_chip dump.now.bytes.now true) first end (Ok census)) }
{
    inspect_pages(dump, first, end).map_err(|_| anyhow!("the image cannot be read"))
}

fn print_block(rt: &HostRuntime, dump: &DumpFlash, block: usize) -> anyhow::Result<()> {
    let pages = DumpFlash::block_pages();
    let first = pages.saturating_mul(block);
    let census = counted(dump, first, first.saturating_add(pages))?;
    print!(rt; "block {block}: {census}")?;
    if let Some(numbers) = census.numbers {
        print!(rt; ", numbers {numbers}")?;
    }
    println!(rt; "")?;
    Ok(())
}

fn main(rt: HostRuntime) -> anyhow::Result<()> {
    let mut image = Vec::new(rt.alloc());
    rt.stdin().read_to_end(&mut image)?;
    let dump = DumpFlash::new(&image);
    let blocks = dump.blocks();
    println!(rt; "blocks {blocks}")?;
    for block in 0..blocks {
        print_block(&rt, &dump, block)?;
    }
    let total = counted(&dump, 0, page_count(&dump))?;
    println!(rt; "total: {total}")?;
    Ok(())
}
