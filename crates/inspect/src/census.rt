// Counting pages by their state.
ghost use Rattle.std.specs.Prelude.{◌≡◌, ℕ, ◌+◌, ◌^◌, ◌<◌, List, [], ◌∷◌, ◌++◌, Some};
ghost use Rattle.inspect.specs.Counted.{Counted, Inspects, widened_by};
ghost use Rattle.inspect.specs.Shown.{counts_text, numbers_text};

use flash::{FlashFault, PAGE_BYTES, ReadFlash};
use page::{PageState, page_number, page_state};
use std::fmt;

/// The page numbers that data pages have, from the lowest to the highest.
#[derive(Clone, Copy)]
pub struct Numbers {
    pub lowest: u32,
    pub highest: u32,
}

/// How many pages are in each state, and the numbers of the data pages where there are any.
#[derive(Clone, Copy, Default)]
pub struct Census {
    pub data: usize,
    pub spoilt: usize,
    pub erased: usize,
    pub numbers: Option<Numbers>,
}

impl fmt::Display for Numbers {
    ghost output = { λ numbers. Some (numbers_text numbers) };

    fn fmt<W: fmt::Write>(&self, f: &mut fmt::Formatter<W>) -> fmt::Result {
        let Numbers { lowest, highest } = *self;
        write!(f, "{lowest} to {highest}")
    }
}

/// Writes how many pages are in each state, and not the numbers.
impl fmt::Display for Census {
    ghost output = { λ census. Some (counts_text census) };

    fn fmt<W: fmt::Write>(&self, f: &mut fmt::Formatter<W>) -> fmt::Result {
        let Census {
            data,
            spoilt,
            erased,
            ..
        } = *self;
        write!(f, "{data} data, {spoilt} spoilt, {erased} erased")
    }
}

// The numbers seen so far, and one more.
fn widened(numbers: Option<Numbers>, number: u32) -> Numbers
    ensures { result ≡ widened_by numbers number }
{
    let first = Numbers {
        lowest: number,
        highest: number,
    };
    numbers.map_or(
        first,
        |seen| Numbers {
            lowest: seen.lowest.min(number),
            highest: seen.highest.max(number),
        },
    )
}

impl Census {
    // Takes in one page more.
    fn add(&mut self, page: &[u8; PAGE_BYTES])
        requires { self.old.«data» + self.old.spoilt + self.old.erased < 2 ^ 32 }
        ensures { (pages : List (List ℕ)) → Counted pages self.old → Counted (pages ++ (page.now ∷ [])) self.new }
    {
        match page_state(page) {
            PageState::Erased => self.erased += 1,
            PageState::Spoilt => self.spoilt += 1,
            PageState::Data => {
                self.data += 1;
                self.numbers = Some(widened(self.numbers, page_number(page)));
            }
        }
    }
}

/// Counts the pages from `first` up to `end`, which it does not read, or hands on why one cannot be read.
pub fn inspect_pages<F: ReadFlash>(
    flash: &F,
    first: usize,
    end: usize,
) -> Result<Census, FlashFault>
    ensures { Inspects (F.chip flash.now) first end result }
{
    let mut census = Census::default();
    let mut page = [0xff; PAGE_BYTES];
    for place in first..end {
        flash.read(place, &mut page)?;
        census.add(&page);
    }
    Ok(census)
}
