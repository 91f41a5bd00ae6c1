//! A flash chip by its meaning: `ReadFlash` reads, `Flash` also programs, erases and powers up.
//! Programming clears bits, erasing sets them, and power may go in either, leaving each bit old or final.
//! Three kinds keep that meaning: an image in memory whose fuse cuts power, two flashes end to end,
//! and a dump that is only read. Code above is generic over the traits and proved once for all kinds.

#![tactic(auto)]

mod bytes;
mod dump;
mod fault;
mod fuse;
mod image;
mod joined;
mod traits;

pub use bytes::IMAGE_BLOCK_BYTES;
pub use dump::DumpFlash;
pub use fault::FlashFault;
pub use fuse::Fuse;
pub use image::ImageFlash;
pub use joined::JoinedFlash;
pub use traits::{Flash, MOST_BLOCKS, PAGE_BYTES, ReadFlash, page_count};
