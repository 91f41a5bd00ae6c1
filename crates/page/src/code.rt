// The code that tells a whole page from a torn one: bytes 0 and 1 count the 0 bits of all others.
ghost use Rattle.std.specs.Prelude.{◌≡◌, ◌≤◌, length, sum_by};
ghost use Rattle.page.specs.Code.{state_of, is_data, is_blank, stored_count, zero_count, zeros_of, RisingSpoils};

use crate::layout::{COUNT_BYTES, ONES};
use flash::PAGE_BYTES;

/// A page is erased where every bit is 1, and data where it stores its own zero count.
#[derive(Clone, Copy, PartialEq, Eq, Debug)]
pub enum PageState {
    Erased,
    Data,
    Spoilt,
}

fn zeros(bytes: &[u8]) -> u16
    requires { length bytes.now ≤ 256 }
    ensures { result ≡ sum_by zeros_of bytes.now }
{
    bytes.iter().map(|byte| byte.count_zeros() as u16).sum()
}

/// The number of 0 bits in the page's bytes 2 to 255.
pub fn zero_count(page: &[u8; PAGE_BYTES]) -> u16
    ensures { result ≡ zero_count page.now }
{
    zeros(&page[COUNT_BYTES..])
}

// The number in bytes 0 and 1, high byte first.
fn stored_count(page: &[u8; PAGE_BYTES]) -> u16
    ensures { result ≡ stored_count page.now }
{
    u16::from_be_bytes([page[0], page[1]])
}

// Whether the page stores its own zero count.
#[tactic(auto, unfolding(crate::specs::Code::is_data))]
pub(crate) fn is_data(page: &[u8; PAGE_BYTES]) -> bool
    ensures { result ≡ is_data page.now }
{
    stored_count(page) == zero_count(page)
}

// Whether every bit of the page is 1.
#[tactic(auto, unfolding(crate::specs::Code::blank))]
fn is_blank(page: &[u8; PAGE_BYTES]) -> bool
    ensures { result ≡ is_blank page.now }
{
    *page == [ONES; PAGE_BYTES]
}

/// What the page is to a reader.
pub fn page_state(page: &[u8; PAGE_BYTES]) -> PageState
    ensures { result ≡ state_of page.now }
{
    if is_blank(page) {
        PageState::Erased
    } else if is_data(page) {
        PageState::Data
    } else {
        PageState::Spoilt
    }
}

/// A page whose bits only rose from 0 to 1, as in a torn erase, is data only if none rose.
pub fn rising_never_makes_data()
    ensures { RisingSpoils }
{}
