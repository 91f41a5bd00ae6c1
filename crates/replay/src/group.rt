// Groups, as their pages come by rising number.
ghost use Rattle.std.specs.Prelude.{◌≡◌, ◌+◌, ◌<◌, List, [], ◌∷◌, Decides};
ghost use Rattle.replay.specs.Gathered.{Follows, Gathers, Starts};
ghost use Rattle.page.specs.declared.fields.Header.{Header as Heading};

use page::Header;

/// A group is idle, part gathered or whole, and each page moves it on.
#[derive(Clone, Copy, PartialEq, Eq, Debug)]
pub enum Group {
    Idle,
    /// Its pages with an index below `next` have come, the newest of them numbered `last`.
    Part { last: u32, next: u8, size: u8 },
    Whole { size: u8 },
}

// The page is the next one of a group that has come so far.
fn follows(page: &Header, last: u32, next: u8, size: u8) -> bool
    ensures { Decides result (Follows page.now last next size) }
{
    last < page.number
        && page.number - last == 1
        && page.index == next
        && page.size == size
        && next < size
}

impl Group {
    /// Before any page.
    pub fn new() -> Group
        ensures { Gathers [] result }
    {
        Group::Idle
    }

    // What a page begins by itself.
    fn start(page: &Header) -> Group
        ensures { Starts page.now result }
    {
        if page.index > 0 || page.size == 0 {
            return Group::Idle;
        }
        if page.size == 1 {
            return Group::Whole { size: 1 };
        }
        Group::Part {
            last: page.number,
            next: 1,
            size: page.size,
        }
    }

    /// Takes the next page by rising number.
    pub fn take(&mut self, page: &Header)
        ensures { (pages : List Heading) → Gathers pages self.old → Gathers (page.now ∷ pages) self.new }
    {
        match self {
            Group::Part { last, next, size } => {
                if !follows(page, *last, *next, *size) {
                    *self = Group::start(page);
                } else if *next + 1 == *size {
                    *self = Group::Whole { size: page.size };
                } else {
                    *last = page.number;
                    *next += 1;
                }
            }
            Group::Idle | Group::Whole { .. } => *self = Group::start(page),
        }
    }
}
