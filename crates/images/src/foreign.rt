// Chips that no store of this make would leave, and that read right all the same.
ghost use Rattle.std.specs.Prelude.{◌+◌, ◌^◌, ◌<◌};

use crate::placed::{Placed, at};
use crate::stored::{ARC, CAL, ROOT};
use std::array::from_fn;

/// One-byte names, and parts of it longer ones.
static NAMES: [u8; 62] = *b"ABCDEFGHIJKLMNOPQRSTUVWXYZabcdefghijklmnopqrstuvwxyz0123456789";

/// A group of which one page ends a block and the other begins the next.
pub fn group_across_blocks() -> [Placed; 4] {
    [
        at(30, 2).directory(CAL, ROOT, b"cal"),
        at(29, 3).file(ARC, CAL, b"arc", 0),
        at(31, 4).group(0, 2).chunk(ARC, 0, b""),
        at(32, 5).group(1, 2).file(ARC, CAL, b"arc", 3),
    ]
}

/// Numbers far apart, up to the highest there is.
pub fn numbers_with_gaps() -> [Placed; 5] {
    [
        at(0, 7),
        at(16, 100).directory(70, ROOT, b"cal"),
        at(17, 70_000).group(0, 2).chunk(300, 0, b""),
        at(18, 70_001).group(1, 2).file(300, 70, b"arc", 3),
        at(19, 4_294_967_295),
    ]
}

/// Two pages that follow each other in a group, but not of one size: neither counts.
pub fn group_of_two_sizes() -> [Placed; 4] {
    [
        at(16, 2).directory(CAL, ROOT, b"cal"),
        at(17, 3).file(ARC, CAL, b"arc", 0),
        at(18, 4).group(0, 2).chunk(ARC, 0, b""),
        at(19, 5).group(1, 3).file(ARC, CAL, b"arc", 3),
    ]
}

/// The floor passes the first page of a group: the second still counts.
pub fn floor_cuts_a_group() -> [Placed; 3] {
    [
        at(16, 2).group(0, 2).directory(1, ROOT, b"cal"),
        at(17, 3).group(1, 2).directory(2, ROOT, b"log"),
        at(18, 4).floor(3),
    ]
}

/// The same without the page below the floor: the group is not complete.
pub fn floor_and_erase_cut_a_group() -> [Placed; 2] {
    let [_, log, note] = floor_cuts_a_group();
    [log, note]
}

/// The newest page has a lower floor than one before it: that lower one holds.
pub fn floor_falls() -> [Placed; 3] {
    [
        at(16, 2).directory(CAL, ROOT, b"cal"),
        at(17, 3).floor(3),
        at(18, 4).floor(2),
    ]
}

/// Pages that stand neither by number nor by block, in any block.
pub fn pages_in_any_place() -> [Placed; 5] {
    [
        at(63, 1),
        at(5, 2).directory(CAL, ROOT, b"cal"),
        at(40, 3).file(ARC, CAL, b"arc", 0),
        at(0, 4).group(0, 2).chunk(ARC, 0, b""),
        at(20, 5).group(1, 2).file(ARC, CAL, b"arc", 3),
    ]
}

/// A file whose number is lower than that of its directory.
pub fn entry_before_its_directory() -> [Placed; 2] {
    [
        at(16, 5).directory(5, ROOT, b"cal"),
        at(17, 6).file(1, 5, b"arc", 0),
    ]
}

/// A file is deleted, and another takes its number and with it the chunk that is left.
pub fn number_used_again(length: u16) -> [Placed; 5] {
    [
        at(16, 2).group(0, 2).chunk(2, 0, b""),
        at(17, 3).group(1, 2).file(2, ROOT, b"arc", 3),
        at(18, 4).gone(2),
        at(19, 5).directory(5, ROOT, b"cal"),
        at(20, 6).file(2, 5, b"bow", length),
    ]
}

/// Every bit that belongs to no field is 0 in some page.
pub fn unlisted_bits_at_0() -> [Placed; 7] {
    [
        at(0, 1).altered(15, 241, 0),
        at(16, 2).directory(CAL, ROOT, b"cal").altered(2, 1, 0x20),
        at(17, 3).file(ARC, CAL, b"arc", 3).altered(25, 231, 0),
        at(18, 4).file(4, CAL, b"bow", 0).altered(21, 1, 0x60),
        at(19, 5).chunk(ARC, 0, b"").altered(240, 16, 0),
        at(20, 6).file(6, CAL, b"log", 0),
        at(21, 7).gone(6).altered(15, 241, 0),
    ]
}

// One of a chain of directories, each within the one before; the first stands in the root.
pub(crate) fn nested(depth: usize, name: &[u8]) -> Placed
    requires { depth + 1 < 2 ^ 32 }
{
    let within = depth as u32;
    at(depth, within + 1).directory(within + 1, within, name)
}

/// Eight names of 24 bytes, and the longest file: as long a line as there is.
pub fn longest_path() -> [Placed; 9] {
    let mut pages = from_fn(|i| nested(i, &NAMES[i..i + 24]));
    pages[7] = at(7, 8).file(8, 7, &NAMES[7..31], 7168);
    pages[8] = at(8, 9).chunk(8, 31, b"");
    pages
}

/// As many files as there may be, the last one with the lowest number.
pub fn sixty_files() -> [Placed; 60] {
    from_fn(|i| at(i, 60 + i as u32).file(60 - i as u32, ROOT, &NAMES[i..i + 1], 0))
}

/// As many keys as four blocks allow, and a chunk of no file, which is none.
pub fn sixteen_keys() -> [Placed; 17] {
    let mut pages = from_fn(|i| at(i, 2 + i as u32).chunk(1, i as u8, b""));
    pages[15] = at(15, 17).file(1, ROOT, b"arc", 3137);
    pages[16] = at(16, 18).chunk(9, 0, b"");
    pages
}
