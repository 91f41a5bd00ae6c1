// What a reader of a chip is told: its listing, or why there is none.
ghost use Rattle.std.specs.Prelude.{◌≤◌, length};
ghost use Rattle.listing.specs.Answer.{Answers, refusal_line};
ghost use Rattle.listing.specs.Writes.{Writes};

use crate::lines::LISTING_BYTES;
use crate::list_chip::list;
use crate::pen::Pen;
use flash::{PAGE_BYTES, ReadFlash};

// Writes the line of a refusal to the front.
fn put_refusal(out: &mut [u8], number: u8) -> usize
    requires { 12 ≤ length out.old }
    ensures { Writes out.old 0 (refusal_line number) result out.new }
{
    let mut pen = Pen { out, end: 0 };
    pen.put(b"refused ");
    pen.put_decimal(number as u16);
    pen.put(b"\n");
    pen.end
}

/// Writes the listing of the chip to the front of `out`, or the line of its refusal, and answers where that ends.
pub fn put_answer<F: ReadFlash>(flash: &F, out: &mut [u8; LISTING_BYTES]) -> usize
    ensures within { result ≤ 12480 }
    ensures buffer { Answers (F.ReadFlash.chip flash.now) out.old result out.new }
{
    let mut work = [0xff; PAGE_BYTES];
    match list(flash, &mut work, out) {
        Ok(end) => end,
        Err(fault) => put_refusal(out, fault.number()),
    }
}
