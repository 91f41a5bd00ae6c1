// Which blocks are free.
ghost use Rattle.std.specs.Prelude.{◌≡◌, ℕ, ◌≤◌, Decides, MatchOption, ◌≢◌};
ghost use Rattle.planner.specs.State.{Free};
ghost use Rattle.planner.specs.Steps.{state, SparesAre};

use crate::tables::Tables;

/// The free blocks: none, just this one, or this one and more.
#[derive(Clone, Copy)]
pub enum Spares {
    Nothing,
    One(u8),
    More(u8),
}

impl Tables {
    // The block being written, or the one past the last where there is none.
    fn head_block(&self) -> u8
        ensures { result ≡ (state self.now).head }
    {
        self.head.map_or(self.blocks, |head| head.block)
    }

    // How many pages of the head are used: all of them where there is no head.
    pub(crate) fn used(&self) -> u8
        ensures { result ≡ (state self.now).used }
    {
        self.head.map_or(self.per, |head| head.used)
    }

    /// Whether all numbers in the block lie below the floor, and it is not being written.
    pub fn is_free(&self, block: u8) -> bool
        ensures { Decides result (Free (state self.now) block) }
    {
        block < self.blocks && self.high[block as usize] < self.floor && block != self.head_block()
    }

    // A free block, but not that one, from there on.
    fn free_from(&self, from: u8, but: u8) -> Option<u8>
        ensures { MatchOption result ((c : ℕ) → from ≤ c → Free (state self.now) c → c ≡ but) (λ b. Free (state self.now) b × (b ≢ but)) }
    {
        (from..self.blocks).find(|block| *block != but && self.is_free(*block))
    }

    // A free block, of several the one after the head, so that all wear alike.
    pub(crate) fn first_free(&self) -> Option<u8>
        ensures { MatchOption result ((c : ℕ) → Free (state self.now) c → ⊥) (λ b. Free (state self.now) b) }
    {
        let head = self.head_block();
        self.free_from(head, head)
            .or_else(|| self.free_from(0, head))
    }

    /// The free blocks.
    pub fn spares(&self) -> Spares
        ensures { SparesAre (state self.now) result }
    {
        let Some(block) = self.first_free() else {
            return Spares::Nothing;
        };
        match self.free_from(0, block) {
            None => Spares::One(block),
            Some(_) => Spares::More(block),
        }
    }
}
