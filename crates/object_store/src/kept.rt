// A key with what stands under it.
use lookup::Keyed;
use object::{Key, Object};

/// One place of a map.
#[derive(Clone, Copy)]
pub struct Kept {
    pub key: Key,
    pub object: Object,
}

impl Keyed for Kept {
    type Key = Key;

    ghost keyed = { λ o. o.key };

    fn has(&self, key: &Key) -> bool {
        self.key == *key
    }
}
