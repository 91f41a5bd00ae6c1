// The remembered pages, with what tells which of them count.
ghost use Rattle.std.specs.Prelude.{◌≤◌, length};

use crate::seen::Seen;
use crate::tables::PAGE_LIMIT;

/// The remembered pages by rising number, which of them have a complete group, and the floor. `whole` lies
/// beside the pages: they are remembered, and shared, before any group is known to be complete.
#[derive(Clone, Copy)]
pub(crate) struct Pages<'a> {
    pub(crate) seen: &'a [Seen],
    pub(crate) whole: &'a [bool; PAGE_LIMIT],
    pub(crate) floor: u32,
    ghost few: { length seen.now ≤ 256 },
}
