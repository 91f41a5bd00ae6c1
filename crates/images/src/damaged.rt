// Chips whose data pages make no sense, alone or together.
use crate::foreign::{nested, sixteen_keys, sixty_files};
use crate::placed::{Placed, at};
use crate::stored::{ARC, CAL, ROOT};
use std::array::from_fn;

/// Pages with one field out of its range, by what is wrong: each is damage wherever it stands.
pub fn fields_out_of_range() -> [(&'static str, Placed); 12] {
    let cal = at(1, 4).directory(CAL, ROOT, b"cal");
    let arc = at(1, 4).file(ARC, ROOT, b"arc", 7168);
    [
        ("kind 4", at(1, 4).altered(2, 1, 0x81)),
        ("an index at its group's size", at(1, 4).altered(2, 1, 0x09)),
        ("number 0, in a page of zeros", at(1, 4).altered(2, 254, 0)),
        ("floor 0", at(1, 4).altered(10, 1, 0)),
        ("a floor above the number", at(1, 4).altered(10, 1, 5)),
        ("a note of a file", at(1, 4).altered(14, 1, 1)),
        ("a gone page of no file", at(1, 4).gone(1).altered(14, 1, 0)),
        ("a file number above the number", cal.altered(14, 1, 5)),
        ("a directory of one byte", cal.altered(20, 1, 0x04)),
        ("a file of 7169 bytes", arc.altered(20, 1, 0x04)),
        ("chunk 32", at(1, 4).chunk(ARC, 31, b"").altered(15, 1, 32)),
        (
            "a chunk of no file",
            at(1, 4).chunk(ARC, 0, b"").altered(14, 1, 0),
        ),
    ]
}

/// Pages with a name that is not allowed.
pub fn bad_names() -> [(&'static str, Placed); 6] {
    let short = at(1, 4).directory(CAL, ROOT, b"x");
    let dotted = at(1, 4).directory(CAL, ROOT, b".x");
    let long = at(1, 4).directory(CAL, ROOT, b"ABCDEFGHIJKLMNOPQRSTUVWX");
    [
        ("a name with a blank", dotted.altered(22, 1, b' ')),
        ("a name with a slash", dotted.altered(22, 1, b'/')),
        ("the name .", short.altered(22, 1, b'.')),
        ("the name ..", dotted.altered(23, 1, b'.')),
        ("a name of no bytes", short.altered(21, 1, 0x1f)),
        ("a name of 25 bytes", long.altered(21, 1, 0x3f)),
    ]
}

/// The damaged page with a newer page above it, whose floor passes it.
pub fn below_the_floor(damaged: Placed) -> [Placed; 2] {
    [damaged, at(2, 9).floor(9)]
}

/// A page and its very copy.
pub fn one_number_twice() -> [Placed; 2] {
    [
        at(16, 2).directory(CAL, ROOT, b"cal"),
        at(32, 2).directory(CAL, ROOT, b"cal"),
    ]
}

pub fn directory_missing() -> [Placed; 1] {
    [at(16, 3).file(ARC, CAL, b"arc", 0)]
}

pub fn directory_is_a_file() -> [Placed; 2] {
    [
        at(16, 2).file(CAL, ROOT, b"cal", 0),
        at(17, 3).file(ARC, CAL, b"arc", 0),
    ]
}

/// Two directories, each within the other.
pub fn directories_in_a_ring() -> [Placed; 2] {
    [
        at(16, 2).directory(1, 2, b"cal"),
        at(17, 3).directory(2, 1, b"log"),
    ]
}

/// Eight directories, each within the one before, and a file in the last.
pub fn nine_names() -> [Placed; 9] {
    let mut pages = from_fn(|i| nested(i, b"d"));
    pages[8] = at(8, 9).file(9, 8, b"arc", 0);
    pages
}

/// A file and a directory of one name in one directory.
pub fn one_name_twice() -> [Placed; 2] {
    [
        at(16, 2).directory(1, ROOT, b"cal"),
        at(17, 3).file(2, ROOT, b"cal", 0),
    ]
}

/// A chunk that starts where its file ends.
pub fn chunk_at_the_end() -> [Placed; 2] {
    [
        at(16, 2).file(1, ROOT, b"arc", 224),
        at(17, 3).chunk(1, 1, b""),
    ]
}

pub fn chunk_of_a_directory() -> [Placed; 2] {
    [
        at(16, 2).directory(1, ROOT, b"cal"),
        at(17, 3).chunk(1, 0, b""),
    ]
}

/// One file too many.
pub fn sixty_one_files() -> [Placed; 61] {
    let mut pages = [at(60, 200).file(200, ROOT, b"arc", 0); 61];
    pages[..60].copy_from_slice(&sixty_files());
    pages
}

/// One key too many for four blocks.
pub fn seventeen_keys() -> [Placed; 18] {
    let mut pages = [at(17, 19).directory(19, ROOT, b"cal"); 18];
    pages[..17].copy_from_slice(&sixteen_keys());
    pages
}
