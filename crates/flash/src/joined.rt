// Two flashes of any kinds as one: the blocks of the first, then those of the second, up to 1,000.
ghost use Rattle.std.specs.Prelude.{◌≡◌, true};
ghost use Rattle.std.proofs.Common.{sym, ◌∙◌};
ghost use Rattle.flash.specs.Chip.{powered};
ghost use Rattle.flash.specs.Joined.{ErasesOne, ProgramsOne, joined, retold};
ghost use Rattle.flash.specs.Joins.{joined_formed};
ghost use Rattle.flash.specs.Says.{Erases, Programs};

use crate::fault::{FlashFault, admit};
use crate::traits::{Flash, MOST_BLOCKS, PAGE_BYTES, ReadFlash, page_count};

#[derive(Drop)]
pub struct JoinedFlash<A, B> {
    first: A,
    second: B,
}

impl<A, B> JoinedFlash<A, B> {
    pub fn new(first: A, second: B) -> JoinedFlash<A, B>
        ensures { (result.first ≡ first) × (result.second ≡ second) }
    {
        JoinedFlash { first, second }
    }
}

impl<A: ReadFlash, B: ReadFlash> ReadFlash for JoinedFlash<A, B> {
    const PAGES_PER_BLOCK: usize = A::PAGES_PER_BLOCK;

    ghost per_block = { A.per_block };

    ghost sixteen = { A.sixteen };

    ghost chip = { λ s. joined (A.chip s.first) (B.chip s.second) };

    ghost formed = { λ s. joined_formed A.per_block B.per_block (A.chip s.first) (B.chip s.second) (B.sixteen ∙ sym A.sixteen) (A.formed s.first) (B.formed s.second) };

    fn block_pages() -> usize {
        A::block_pages()
    }

    fn blocks(&self) -> usize {
        (self.first.blocks() + self.second.blocks()).min(MOST_BLOCKS)
    }

    fn is_on(&self) -> bool {
        self.first.is_on() && self.second.is_on()
    }

    fn read(&self, page: usize, out: &mut [u8]) -> Result<(), FlashFault> {
        // Not by `page_count`, whose bound leads back to this call.
        admit(self.is_on(), page < A::block_pages() * self.blocks())?;
        let split = page_count(&self.first);
        if page < split {
            self.first.read(page, out)
        } else {
            self.second.read(page - split, out)
        }
    }
}

// An answer of the second flash, with the page or block as the joined flash numbers it.
fn retell(place: usize, answer: Result<(), FlashFault>) -> Result<(), FlashFault>
    ensures { result ≡ retold place answer }
{
    answer.map_err(|fault| match fault {
        FlashFault::Program { .. } => FlashFault::Program { page: place },
        FlashFault::Erase { .. } => FlashFault::Erase { block: place },
        other => other,
    })
}

impl<A: Flash, B: Flash> Flash for JoinedFlash<A, B> {
    fn program(&mut self, page: usize, bytes: &[u8; PAGE_BYTES]) -> Result<(), FlashFault>
        ensures says { Programs (⟦<Self as ReadFlash>⟧.chip self.old) page bytes.now result (⟦<Self as ReadFlash>⟧.chip self.new) }
        ensures one { ProgramsOne (A.chip self.old.first) (B.chip self.old.second) page bytes.now result (A.chip self.new.first) (B.chip self.new.second) }
    {
        admit(self.is_on(), page < page_count(self))?;
        let split = page_count(&self.first);
        if page < split {
            self.first.program(page, bytes)
        } else {
            retell(page, self.second.program(page - split, bytes))
        }
    }

    fn erase(&mut self, block: usize) -> Result<(), FlashFault>
        ensures says { Erases (⟦<Self as ReadFlash>⟧.chip self.old) block result (⟦<Self as ReadFlash>⟧.chip self.new) }
        ensures one { ErasesOne (A.chip self.old.first) (B.chip self.old.second) block result (A.chip self.new.first) (B.chip self.new.second) }
    {
        admit(self.is_on(), block < self.blocks())?;
        let split = self.first.blocks();
        if block < split {
            self.first.erase(block)
        } else {
            retell(block, self.second.erase(block - split))
        }
    }

    // Powers both.
    fn power_up(&mut self)
        ensures says { ⟦<Self as ReadFlash>⟧.chip self.new ≡ powered (⟦<Self as ReadFlash>⟧.chip self.old) true }
        ensures both { (A.chip self.new.first ≡ powered (A.chip self.old.first) true) × (B.chip self.new.second ≡ powered (B.chip self.old.second) true) }
    {
        self.first.power_up();
        self.second.power_up();
    }
}
