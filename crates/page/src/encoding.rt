// From what a page says to its bytes.
ghost use Rattle.std.specs.Prelude.{◌≡◌, ◌+◌, ◌^◌, ◌<◌, ◌≤◌, true, [], ◌∷◌, length, if◌then◌else◌, Ok, Err};
ghost use Rattle.page.specs.declared.fields.PageFault.TheVariants.{OutOfRange};
ghost use Rattle.page.specs.Code.{blank};
ghost use Rattle.page.specs.Encoded.{be24, directory_bit, encoded, lead as lead_of, packed as packed_of};
ghost use Rattle.page.specs.Kinds.{number_of};
ghost use Rattle.page.specs.Pasted.{Sized, pasted, put_together, with_chunk, with_content, with_count, with_entry, with_header};
ghost use Rattle.page.specs.Holds.{Holds};
ghost use Rattle.page.specs.Fits.{entry_fits, fits as page_fits, header_fits};

use crate::code::zero_count;
use crate::fields::{Chunk, Content, Entry, EntryKind, Header, Page, PageFault};
use crate::kinds::Kind;
use crate::layout::{
    CHUNK_AT, CHUNK_INDEX, COUNT_AT, DIRECTORY, FILE, FLOOR, IS_DIRECTORY, KIND, NAME_AT, NUMBER,
    ONES,
};
use flash::PAGE_BYTES;

// Writes the bytes from a place on.
#[tactic(auto, using(crate::proofs::Pasting::pasted_part), unfolding(crate::specs::Pasted::pasted))]
fn put(out: &mut [u8; PAGE_BYTES], at: usize, bytes: &[u8])
    requires { at + length bytes.now ≤ 256 }
    ensures { out.new ≡ pasted out.old at bytes.now }
{
    out[at..at + bytes.len()].copy_from_slice(bytes);
}

// Kind, index and size in one byte, where `layout` has them; its last bit is not used.
fn lead(kind: Kind, header: &Header) -> u8
    requires { (header.now.index < 4) × (1 ≤ header.now.size) × (header.now.size ≤ 4) }
    ensures { result ≡ lead_of (number_of kind) header.now }
{
    (kind.number() << 5) + (header.index << 3) + ((header.size - 1) << 1) + 1
}

#[tactic(auto, using(crate::proofs::Ranges::header_ranges))]
fn put_header(out: &mut [u8; PAGE_BYTES], kind: Kind, header: &Header)
    requires { header_fits header.now ≡ true }
    ensures sized { header.now.number < 2 ^ 32 }
    ensures buffer { out.new ≡ with_header out.old (number_of kind) header.now }
{
    put(out, KIND.byte(), &[lead(kind, header)]);
    put(out, NUMBER.byte(), &header.number.to_be_bytes());
    put(out, FLOOR.byte(), &header.floor.to_be_bytes());
    put(out, FILE.byte(), &header.file.to_be_bytes());
}

impl EntryKind {
    fn bit(self) -> u32
        ensures value { result ≡ directory_bit self }
        ensures bound { result < 2 }
    {
        self as u32
    }
}

// What an entry is, its length and its name's length in three bytes, where `layout` has them; the last
// five bits are not used.
fn packed(entry: &Entry) -> u32
    requires { (entry.now.length ≤ 7168) × (entry.now.name.len ≤ 24) }
    ensures { result ≡ packed_of entry.now }
{
    (entry.kind.bit() << 23) + ((entry.length as u32) << 10) + ((entry.name.len as u32) << 5) + 31
}

fn packed_bytes(entry: &Entry) -> [u8; 3]
    requires { (entry.now.length ≤ 7168) × (entry.now.name.len ≤ 24) }
    ensures { result ≡ be24 (packed_of entry.now) }
{
    let [_, high, middle, low] = packed(entry).to_be_bytes();
    [high, middle, low]
}

#[tactic(auto, using(crate::proofs::Ranges::entry_ranges))]
fn put_entry(out: &mut [u8; PAGE_BYTES], entry: &Entry)
    requires { entry_fits entry.now ≡ true }
    ensures sized { entry.now.directory < 2 ^ 32 }
    ensures buffer { out.new ≡ with_entry out.old entry.now }
{
    put(out, DIRECTORY.byte(), &entry.directory.to_be_bytes());
    put(out, IS_DIRECTORY.byte(), &packed_bytes(entry));
    put(out, NAME_AT, entry.name.as_bytes());
}

fn put_chunk(out: &mut [u8; PAGE_BYTES], chunk: &Chunk)
    ensures sized { length chunk.now.bytes ≡ 224 }
    ensures buffer { out.new ≡ with_chunk out.old chunk.now }
{
    put(out, CHUNK_INDEX.byte(), &[chunk.index]);
    put(out, CHUNK_AT, &chunk.bytes);
}

#[tactic(auto, unfolding(crate::specs::Fits::fits))]
fn put_content(out: &mut [u8; PAGE_BYTES], page: &Page)
    requires { page_fits page.now ≡ true }
    ensures sized { Sized page.now.content }
    ensures buffer { out.new ≡ with_content out.old page.now.content }
{
    match &page.content {
        Content::Entry(entry) => put_entry(out, entry),
        Content::Chunk(chunk) => put_chunk(out, chunk),
        Content::Note | Content::Gone => {}
    }
}

// Counts last, since the zeros of all other bytes are counted.
fn put_count(out: &mut [u8; PAGE_BYTES])
    ensures { out.new ≡ with_count out.old }
{
    let count = zero_count(out);
    put(out, COUNT_AT, &count.to_be_bytes());
}

#[tactic(auto, unfolding(crate::specs::Code::blank))]
fn put_ones(out: &mut [u8; PAGE_BYTES])
    ensures { out.new ≡ blank }
{
    *out = [ONES; PAGE_BYTES];
}

#[tactic(auto, unfolding(crate::specs::Fits::fits))]
fn put_page(out: &mut [u8; PAGE_BYTES], page: &Page)
    requires { page_fits page.now ≡ true }
    ensures number { page.now.header.number < 2 ^ 32 }
    ensures sized { Sized page.now.content }
    ensures buffer { out.new ≡ put_together page.now }
{
    put_ones(out);
    put_header(out, page.content.kind(), &page.header);
    put_content(out, page);
    put_count(out);
}

/// Writes the page that `decode` reads back as `page`; where a field is out of its range, writes nothing.
pub fn encode(page: &Page, out: &mut [u8; PAGE_BYTES]) -> Result<(), PageFault>
    ensures answer { result ≡ (if page_fits page.now then Ok tt else Err OutOfRange) }
    ensures buffer { out.new ≡ (if page_fits page.now then encoded page.now else out.old) }
    ensures round { page_fits page.now ≡ true → Holds page.now out.new }
{
    if !page.fits() {
        return Err(PageFault::OutOfRange);
    }
    put_page(out, page);
    Ok(())
}
