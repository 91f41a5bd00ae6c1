// Fields of a page by their bits, numbered from the most significant bit of byte 0.
ghost use Rattle.std.specs.Prelude.{◌≡◌, ◌+◌, ◌/◌, ◌^◌, ◌<◌, ◌≤◌};
ghost use Rattle.page.specs.Bits.{bit as bit_of, field};

use flash::PAGE_BYTES;

/// The bits of a field: the first one's number, and how many there are.
#[derive(Clone, Copy)]
pub struct Bits {
    pub at: usize,
    pub width: usize,
}

#[tactic(auto, unfolding(crate::specs::Bits::bit))]
fn bit(page: &[u8; PAGE_BYTES], k: usize) -> u8
    requires { k < 2048 }
    ensures { result ≡ bit_of page.now k }
{
    (page[k / 8] >> (7 - k % 8)) % 2
}

impl Bits {
    // The byte in which the field starts.
    pub(crate) fn byte(self) -> usize
        ensures { result ≡ self.at / 8 }
    {
        self.at / 8
    }

    // The number in the field, most significant bit first.
    #[tactic(auto, using(crate::proofs::BitLaws::field_none))]
    pub(crate) fn read(self, page: &[u8; PAGE_BYTES]) -> u32
        requires { (self.at + self.width ≤ 2048) × (self.width ≤ 32) }
        ensures value { result ≡ field page.now self.at self.width }
        ensures bound { result < 2 ^ self.width }
    {
        // A loop: in a `fold` it is not known that the value has room for one more bit.
        let mut value = 0;
        for i in 0..self.width {
            value = 2 * value + bit(page, self.at + i) as u32;
        }
        value
    }
}
