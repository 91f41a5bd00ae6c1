// The keys that a chip tells, each with the page that tells it.

/// A key, with the place and the number of the page that tells it.
pub type Slot = object::Slot<usize>;
