// Chips as a store leaves them.
use crate::placed::{Placed, at};

pub(crate) const ROOT: u32 = 0;

pub(crate) const CAL: u32 = 2;

pub(crate) const ARC: u32 = 3;

/// A format; /cal made, /cal/arc made, three bytes written to it.
pub fn plain() -> [Placed; 5] {
    [
        at(0, 1),
        at(16, 2).floor(2).directory(CAL, ROOT, b"cal"),
        at(17, 3).floor(2).file(ARC, CAL, b"arc", 0),
        at(18, 4).floor(2).group(0, 2).chunk(ARC, 0, &[17, 4, 9]),
        at(19, 5).floor(2).group(1, 2).file(ARC, CAL, b"arc", 3),
    ]
}

/// The same, but power went before the last page: the write never was.
pub fn cut_short_group() -> [Placed; 4] {
    let [note, cal, arc, chunk, _] = plain();
    [note, cal, arc, chunk]
}

/// A group cut short, and its next number taken by a page that stands alone.
pub fn next_number_taken() -> [Placed; 5] {
    let [note, cal, arc, chunk, _] = plain();
    [note, cal, arc, chunk, at(32, 5).directory(5, ROOT, b"log")]
}

/// A deletion of which nine bytes were programmed.
pub fn torn_last_page() -> [Placed; 6] {
    let [note, cal, arc, chunk, whole] = plain();
    [
        note,
        cal,
        arc,
        chunk,
        whole,
        at(20, 6).floor(2).gone(ARC).torn(9),
    ]
}

/// /cal/arc is deleted, then the floor rises past the gone page, while the entry that it took away still stands.
pub fn gone_below_the_floor() -> [Placed; 5] {
    let [note, cal, arc, _, _] = plain();
    [
        note,
        cal,
        arc,
        at(32, 4).floor(2).gone(ARC),
        at(33, 5).floor(5).directory(CAL, ROOT, b"cal"),
    ]
}
