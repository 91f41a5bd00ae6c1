// From a page of an example to the bytes that are programmed.
ghost use Rattle.std.specs.Prelude.{◌≡◌, Some};
ghost use Rattle.images.specs.declared.bytes.ImageFault.TheVariants.{Unfit};
ghost use Rattle.images.specs.Bytes.{bytes_of, overwritten, recounted, told};

use crate::placed::{Manner, Placed};
use flash::PAGE_BYTES;
use page::{Page, PageFault, encode, zero_count};
use std::error::Error;
use std::fmt;

/// Why an example is not on the chip.
#[derive(Clone, Copy, PartialEq, Eq, Debug)]
pub enum ImageFault {
    /// A field is out of its range, or a name is not allowed.
    Unfit,
    /// A page stands past the chip's end, or its power is off.
    Place,
}

impl fmt::Display for ImageFault {
    ghost output = { λ fault. Some (told fault) };

    fn fmt<W: fmt::Write>(&self, f: &mut fmt::Formatter<W>) -> fmt::Result {
        f.write_str(match self {
            ImageFault::Unfit => "a field is out of its range, or a name is not allowed",
            ImageFault::Place => "a page stands past the chip's end, or its power is off",
        })
    }
}

impl Error for ImageFault {}

impl From<PageFault> for ImageFault {
    ghost from_gives = { λ _ fault. fault ≡ Unfit };

    fn from(_: PageFault) -> Self {
        Self::Unfit
    }
}

// Sets the bytes from `at` on, as many as `count` says and there are.
fn overwrite(bytes: &mut [u8; PAGE_BYTES], at: usize, count: usize, byte: u8)
    ensures { bytes.new ≡ overwritten bytes.old at count byte }
{
    let from = PAGE_BYTES.min(at);
    let to = from + count.min(PAGE_BYTES - from);
    bytes[from..to].fill(byte);
}

// Makes the bytes data again.
fn recount(bytes: &mut [u8; PAGE_BYTES])
    ensures { bytes.new ≡ recounted bytes.old }
{
    let [high, low] = zero_count(bytes).to_be_bytes();
    bytes[0] = high;
    bytes[1] = low;
}

/// The bytes that are programmed: the page's own, or altered ones that are data all the same.
pub fn page_bytes(placed: &Placed) -> Result<[u8; PAGE_BYTES], ImageFault>
    ensures { result ≡ bytes_of placed.now }
{
    let header = placed.header;
    let content = placed.content.ok_or(ImageFault::Unfit)?;
    let mut bytes = [0xff; PAGE_BYTES];
    encode(&Page { header, content }, &mut bytes)?;
    if let Manner::Altered { at, count, byte } = placed.manner {
        overwrite(&mut bytes, at, count, byte);
        recount(&mut bytes);
    }
    Ok(bytes)
}
