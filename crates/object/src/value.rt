// What stands under a key.
use page::{CHUNK_BYTES, Entry};

/// The entry of a file or directory, or the bytes of a chunk.
#[derive(Clone, Copy)]
pub enum Object {
    Entry(Entry),
    Chunk([u8; CHUNK_BYTES]),
}
