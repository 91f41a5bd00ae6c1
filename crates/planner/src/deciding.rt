// Which step comes next.
ghost use Rattle.std.specs.Prelude.{◌≡◌, ℕ, ◌+◌, ◌^◌, ◌<◌, ◌≤◌, Decides, ◌≢◌};
ghost use Rattle.planner.specs.Steps.{state, Next, Turn};

use crate::batch::is_group;
use crate::free::Spares;
use crate::head::Phase;
use crate::steps::Step;
use crate::tables::Tables;

impl Tables {
    // Whether the head has `g` pages left.
    pub(crate) fn has_left(&self, g: usize) -> bool
        ensures { Decides result ((state self.now).used + g ≤ (state self.now).per) }
    {
        g <= (self.per - self.used()) as usize
    }

    // The first step from rest.
    fn first_step(&self, g: usize) -> Step
        requires rest { self.now.phase ≡ Phase.AtRest }
        requires some { 1 ≤ g }
        ensures { Next self.now.phase (state self.now) g result }
    {
        if self.has_left(g) {
            return Step::Ready;
        }
        if self.is_spent() {
            return Step::Spent;
        }
        match self.first_free() {
            Some(block) => Step::Open { block },
            None => unreachable(),
        }
    }

    // The copy that comes next, or nothing where there is no key.
    fn copy_step(&self) -> Step
        requires { self.now.last + 1 < 2 ^ 32 }
        ensures { Turn (state self.now) result }
    {
        match self.lowest() {
            None => Step::Ready,
            Some(slot) => Step::Copy {
                slot,
                floor: self.floor_after(slot),
            },
        }
    }

    // A later step, while room is made.
    fn later_step(&self, g: usize) -> Step
        requires making { self.now.phase ≢ Phase.AtRest }
        requires group { (1 ≤ g) × (g ≤ 4) }
        ensures { Next self.now.phase (state self.now) g result }
    {
        match self.spares() {
            Spares::Nothing => self.copy_step(),
            Spares::One(_) | Spares::More(_) if self.has_left(g) => Step::Ready,
            Spares::More(block) => Step::Open { block },
            Spares::One(block) if self.used() == self.per => Step::Open { block },
            Spares::One(_) => self.copy_step(),
        }
    }

    /// What comes next to make room for a group of `g` pages, 1 to 4.
    pub fn next_step(&self, g: usize) -> Step
        ensures { 1 ≤ g → g ≤ 4 → Next self.now.phase (state self.now) g result }
    {
        if !is_group(g) {
            return Step::Ready;
        }
        match self.phase {
            Phase::AtRest => self.first_step(g),
            Phase::MakingRoom { .. } => self.later_step(g),
        }
    }
}
