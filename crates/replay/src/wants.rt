// Which of the keys that are shown are collected.
ghost use Rattle.std.specs.Prelude.{◌≡◌, Decides};
ghost use Rattle.object.specs.declared.key.Key.{Key as Name};
ghost use Rattle.page.specs.declared.fields.Entry.{Entry};
ghost use Rattle.tree.specs.Table.{nodes_of};
ghost use Rattle.tree.specs.Tree.{Among};

use object::Key;
use tree::Tree;

/// A choice of keys. A trait and no closure: its ghost member names what is wanted, which a function that
/// takes a closure could say only by one more ghost value and one more demand on each caller.
pub(crate) trait Wants {
    ghost wanted: { Self → Name → Type 0 };

    fn wants(&self, key: &Key) -> bool
        ensures { Decides result (wanted self.now key.now) };
}

/// The keys of entries.
#[derive(Clone, Copy)]
pub(crate) struct EntryKeys;

impl Wants for EntryKeys {
    ghost wanted = { λ _ k. k.part ≡ 0 };

    fn wants(&self, key: &Key) -> bool {
        key.part == 0
    }
}

// The keys of files that the tree has.
impl Wants for Tree {
    ghost wanted = { λ t k. (e : Entry) × Among (nodes_of t) k.file e };

    fn wants(&self, key: &Key) -> bool {
        self.get(key.file).is_some()
    }
}
