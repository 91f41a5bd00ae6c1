// An entry under its file number.
use lookup::{Keyed, Ranked};
use page::Entry;

/// A file or directory, under its file number.
#[derive(Clone, Copy)]
pub struct Node {
    /// 1 or more: 0 is the root.
    pub file: u32,
    pub entry: Entry,
}

impl Keyed for Node {
    type Key = u32;

    ghost keyed = { λ n. n.file };

    fn has(&self, key: &u32) -> bool {
        self.file == *key
    }
}

impl Ranked for Node {
    ghost ranked = { λ n. n.file };

    fn rank(&self) -> u64 {
        self.file as u64
    }
}
