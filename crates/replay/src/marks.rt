// Which of the remembered pages have a complete group.
ghost use Rattle.std.specs.Prelude.{◌-◌, ◌≤◌, length};
ghost use Rattle.replay.specs.Marks.{Flagged, Marks, Walkable};

use crate::group::Group;
use crate::seen::Seen;
use crate::tables::PAGE_LIMIT;

// Sets the last `size` flags before `end`.
fn flag_last(flags: &mut [bool], end: usize, size: usize)
    requires { (size ≤ end) × (end ≤ length flags.old) }
    ensures { Flagged flags.old (end - size) end flags.new }
{
    flags[end - size..end].fill(true);
}

// Takes the pages by rising number, and flags those of each group that becomes whole.
pub(crate) fn mark(seen: &[Seen]) -> [bool; PAGE_LIMIT]
    requires room { length seen.now ≤ 256 }
    requires walk { Walkable seen.now }
    ensures { Marks seen.now result }
{
    let mut flags = [false; PAGE_LIMIT];
    let mut group = Group::new();
    for (i, page) in seen.iter().enumerate() {
        group.take(&page.header);
        if let Group::Whole { size } = group {
            flag_last(&mut flags, i + 1, size as usize);
        }
    }
    flags
}
