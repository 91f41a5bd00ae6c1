// Which page tells which key.
ghost use Rattle.object.specs.Rank.{key_rank};

use crate::key::Key;
use lookup::{Keyed, Ranked};

/// A key, with the place of the page that tells it and that page's number.
#[derive(Clone, Copy, Default)]
pub struct Slot<P> {
    pub key: Key,
    pub place: P,
    pub number: u32,
}

impl<P> Keyed for Slot<P> {
    type Key = Key;

    ghost keyed = { λ s. s.key };

    fn has(&self, key: &Key) -> bool {
        self.key == *key
    }
}

impl<P> Ranked for Slot<P> {
    ghost ranked = { λ s. key_rank s.key };

    fn rank(&self) -> u64 {
        self.key.rank()
    }
}
