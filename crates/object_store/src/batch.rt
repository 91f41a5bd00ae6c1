// What the changes of a batch say together.
ghost use Rattle.std.specs.Prelude.{◌≡◌};
ghost use Rattle.object_store.specs.Changes.{in_order, removes as removes_spec, sets_file, sets_key, spares as spares_spec};

use crate::change::Change;
use object::Key;

/// Whether one of the changes removes the file.
pub fn removes(changes: &[Change], file: u32) -> bool
    ensures { result ≡ removes_spec changes.now file }
{
    changes.iter().any(|change| change.takes(file))
}

// Whether one of the changes sets the key.
pub(crate) fn sets_key(changes: &[Change], key: &Key) -> bool
    ensures { result ≡ sets_key changes.now key.now }
{
    changes.iter().any(|change| change.sets(key))
}

// Whether one of the changes sets a key of the file.
fn sets_file(changes: &[Change], file: u32) -> bool
    ensures { result ≡ sets_file changes.now file }
{
    changes.iter().any(|change| change.sets_in(file))
}

// Whether no later change sets a key of a file that this one removes.
fn spares(change: &Change, later: &[Change]) -> bool
    ensures { result ≡ spares_spec change.now later.now }
{
    match change {
        Change::Set(_, _) => true,
        Change::Remove(file) => !sets_file(later, *file),
    }
}

// Whether no key is set after its file's removal. It goes as deep as there are changes: few, where a batch is judged.
pub(crate) fn is_in_order(changes: &[Change]) -> bool
    ensures { result ≡ in_order changes.now }
{
    match changes {
        [] => true,
        [first, later @ ..] => spares(first, later) && is_in_order(later),
    }
}
