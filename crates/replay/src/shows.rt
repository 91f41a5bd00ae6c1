// Which of the remembered pages shows which key.
ghost use Rattle.std.specs.Prelude.{◌≡◌, ◌<◌, length, Decides};
ghost use Rattle.object.specs.declared.key.Key.{Key as Name};
ghost use Rattle.replay.specs.Shows.{CountedAt, SaidTo, Shows, SpeaksAt, SpokenAfter};

use crate::pages::Pages;
use crate::seen::Says;
use object::Key;

// Whether what is said is said to this key.
fn said_to(says: Option<Says>, key: &Key) -> bool
    ensures { Decides result (SaidTo says key.now) }
{
    match says {
        Some(Says::Sets(slot) | Says::Removes(slot)) => slot == *key,
        None => false,
    }
}

// A page is named by its index, since `whole` lies beside the pages and an index names both; so each asks, as an element of
// a slice does, that it is below the number of pages.
impl Pages<'_> {
    // Whether the page at `i` counts.
    fn counts(&self, i: usize) -> bool
        requires { i < length self.now.seen.now }
        ensures { Decides result (CountedAt self.now.seen.now self.now.whole.now self.now.floor i) }
    {
        self.whole[i] && self.floor <= self.seen[i].header.number
    }

    // Whether the page at `i` counts and speaks to the key.
    fn speaks(&self, i: usize, key: &Key) -> bool
        requires { i < length self.now.seen.now }
        ensures { Decides result (SpeaksAt self.now.seen.now self.now.whole.now self.now.floor i key.now) }
    {
        self.counts(i) && said_to(self.seen[i].says, key)
    }

    // Whether a page after the one at `i` counts and speaks to the key.
    fn spoken_after(&self, i: usize, key: &Key) -> bool
        requires { i < length self.now.seen.now }
        ensures { Decides result (SpokenAfter self.now.seen.now self.now.whole.now self.now.floor i key.now) }
    {
        (i + 1..self.seen.len()).any(|j| self.speaks(j, key))
    }

    // The key that the page at `i` shows.
    pub(crate) fn shows(&self, i: usize) -> Option<Key>
        requires { i < length self.now.seen.now }
        ensures { Shows self.now.seen.now self.now.whole.now self.now.floor i result }
    {
        let says = self.seen[i].says?;
        let Says::Sets(key) = says else {
            return None;
        };
        if !self.counts(i) || self.spoken_after(i, &key) {
            return None;
        }
        Some(key)
    }
}
