// Keys.
ghost use Rattle.std.specs.Prelude.{◌≡◌};
ghost use Rattle.object.specs.Rank.{key_rank};

use lookup::Keyed;

/// The entry of a file, or one of its chunks.
#[derive(Clone, Copy, PartialEq, Eq, Debug, Default)]
pub struct Key {
    /// The file number, 1 or more.
    pub file: u32,
    /// 0 is the entry, 1 to 32 are the chunks. A number and no enum: callers make keys of any part, and all that is said of
    /// parts is said by number.
    pub part: u8,
}

impl Key {
    /// The key of a file's entry.
    pub fn entry(file: u32) -> Key
        ensures { result ≡ record { file = file; part = 0 } }
    {
        Key { file, part: 0 }
    }

    /// The place of the key in the order of keys: by file, and within a file by part.
    pub fn rank(&self) -> u64
        ensures { result ≡ key_rank self.now }
    {
        self.file as u64 * 256 + self.part as u64
    }
}

impl Keyed for Key {
    type Key = Key;

    ghost keyed = { λ k. k };

    fn has(&self, key: &Key) -> bool {
        *self == *key
    }
}
