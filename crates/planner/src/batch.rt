// What the pages of a batch do to the slots.
ghost use Rattle.std.specs.Prelude.{◌≡◌, ◌+◌, ◌^◌, ◌<◌, ◌≤◌, length, Decides};
ghost use Rattle.planner.specs.Slots.{listed};
ghost use Rattle.planner.specs.Written.{Said, Written};

use crate::head::Head;
use crate::says::Says;
use crate::slot::{Place, Slot};
use crate::slots::Slots;

// As many as `page::GROUP_LIMIT`: the planner knows keys and no pages.
/// The most pages of a batch.
pub const BATCH_PAGES: usize = 4;

// Whether a group may have so many pages.
pub(crate) fn is_group(g: usize) -> bool
    ensures { Decides result ((1 ≤ g) × (g ≤ 4)) }
{
    (1..=BATCH_PAGES).contains(&g)
}

// What the page at this place says, with this number.
fn say(slots: &mut Slots, page: Says, place: Place, number: u32)
    requires { length (listed slots.old) < 212 }
    ensures { Said (listed slots.old) page place.block place.index number (listed slots.new) }
{
    match page {
        Says::Tells(key) => {
            // Never refused: a place is free.
            let _ = slots.put(Slot { key, place, number });
        }
        Says::Gone(file) => slots.forget(file),
    }
}

// The slots after the pages, which are written to the head after the last number.
pub(crate) fn written(mut slots: Slots, pages: &[Says], head: Head, last: u32) -> Slots
    requires few { length (listed slots) ≤ 208 }
    requires pages { length pages.now ≤ 4 }
    requires used { head.used ≤ 16 }
    requires fits { last + 4 < 2 ^ 32 }
    ensures { Written (listed slots) pages.now head.block head.used (last + 1) (length pages.now) (listed result) }
{
    for (j, page) in pages.iter().enumerate() {
        say(
            &mut slots,
            *page,
            Place {
                block: head.block,
                index: head.used + j as u8,
            },
            last + 1 + j as u32,
        );
    }
    slots
}
