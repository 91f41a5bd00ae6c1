// Finding a record by its key.
ghost use Rattle.lookup.specs.Found.{Found};
ghost use Rattle.std.specs.Prelude.{◌≡◌, Decides};

/// A record that is found by its key.
pub trait Keyed {
    type Key;

    ghost keyed: { Self → Self.Key };

    /// Whether the record has this key. Each kind says so: `==` of a type parameter would not tell that two keys are one.
    fn has(&self, key: &Self::Key) -> bool
        ensures { Decides result (keyed self.now ≡ key.now) };
}

/// The index of the first record with the key, or that there is none.
pub fn find<R: Keyed>(records: &[R], key: &R::Key) -> Option<usize>
    ensures { Found R.Keyed.keyed records.now key.now result }
{
    records.iter().position(|record| record.has(key))
}
