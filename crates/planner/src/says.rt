// What the pages of a batch say.
use object::Key;

/// What a page of a batch says.
#[derive(Clone, Copy)]
pub enum Says {
    /// It tells this key.
    Tells(Key),
    /// All keys of the file with this number are gone.
    Gone(u32),
}
