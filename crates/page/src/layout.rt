// Where each field of a page stands, and how large its parts are.
use crate::bits::Bits;

/// The bytes of the zero count, which it does not count itself.
pub const COUNT_BYTES: usize = 2;
/// The most bytes that a name has.
pub const NAME_BYTES: usize = 24;
/// The bytes of a chunk.
pub const CHUNK_BYTES: usize = 224;
/// The most chunks that a file has.
pub const CHUNK_LIMIT: u8 = 32;
/// The most bytes that a file has: 32 chunks of 224.
pub const LENGTH_LIMIT: u16 = 7168;
/// The most pages of a group.
pub const GROUP_LIMIT: u8 = 4;

/// An erased byte, and a byte that belongs to no field.
pub const ONES: u8 = 0xff;

/// The number of what the page says, a `Kind`.
pub const KIND: Bits = Bits { at: 16, width: 3 };
/// The page's place in its group, from 0.
pub const INDEX: Bits = Bits { at: 19, width: 2 };
/// The group's size less 1.
pub const SIZE_LESS_1: Bits = Bits { at: 21, width: 2 };
/// The page's number.
pub const NUMBER: Bits = Bits { at: 24, width: 32 };
/// The lowest number that counts.
pub const FLOOR: Bits = Bits { at: 56, width: 32 };
/// The file number.
pub const FILE: Bits = Bits { at: 88, width: 32 };
/// Of an entry: the file number of its directory.
pub const DIRECTORY: Bits = Bits { at: 120, width: 32 };
/// Of an entry: 1 for a directory.
pub const IS_DIRECTORY: Bits = Bits { at: 152, width: 1 };
/// Of an entry: its length in bytes.
pub const LENGTH: Bits = Bits { at: 153, width: 13 };
/// Of an entry: the bytes of its name.
pub const NAME_LENGTH: Bits = Bits { at: 166, width: 5 };
/// Of a chunk: its place in the file.
pub const CHUNK_INDEX: Bits = Bits { at: 120, width: 8 };

/// The byte at which the zero count starts.
pub const COUNT_AT: usize = 0;
/// The byte at which an entry's name starts.
pub const NAME_AT: usize = 22;
/// The byte at which a chunk's bytes start.
pub const CHUNK_AT: usize = 16;
