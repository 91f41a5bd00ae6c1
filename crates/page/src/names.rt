// Names of files and directories.
ghost use Rattle.std.specs.Prelude.{◌≡◌, ◌≤◌, length, if◌then◌else◌, Some, None, Decides};
ghost use Rattle.page.specs.Names.{allowed, dots, is_padded, name_byte, name_bytes, name_fits, name_text, named, padded as padded_list};

use crate::layout::NAME_BYTES;

/// A name, in a value of one size, since there is no heap. The places past its length hold 0, so equal names
/// are equal values.
#[derive(Clone, Copy, PartialEq, Eq, Debug)]
pub struct Name {
    pub(crate) len: u8,
    pub(crate) bytes: [u8; NAME_BYTES],
}

/// `==` decides whether two names are one.
pub fn same_name(a: &Name, b: &Name) -> bool
    ensures { Decides result (a.now ≡ b.now) }
{
    a == b
}

fn byte_allowed(byte: u8) -> bool
    ensures { result ≡ name_byte byte }
{
    byte.is_ascii_graphic() && byte != b'/'
}

fn bytes_allowed(bytes: &[u8]) -> bool
    ensures { result ≡ name_bytes bytes.now }
{
    bytes.iter().all(|byte| byte_allowed(*byte))
}

// The two names that paths keep for themselves.
fn is_dots(bytes: &[u8]) -> bool
    ensures { result ≡ dots bytes.now }
{
    matches!(bytes, b"." | b"..")
}

/// Whether these bytes are a name: 1 to 24 visible ones, none of them '/', and neither "." nor "..".
pub fn name_allowed(bytes: &[u8]) -> bool
    ensures { result ≡ allowed bytes.now }
{
    (1..=NAME_BYTES).contains(&bytes.len()) && bytes_allowed(bytes) && !is_dots(bytes)
}

// The places of a name with these bytes.
pub(crate) fn padded(bytes: &[u8]) -> [u8; NAME_BYTES]
    requires { length bytes.now ≤ 24 }
    ensures { result ≡ padded_list bytes.now }
{
    let mut places = [0; NAME_BYTES];
    places[..bytes.len()].copy_from_slice(bytes);
    places
}

impl Name {
    /// The name with these bytes, where they are allowed.
    pub fn new(bytes: &[u8]) -> Option<Name>
        ensures { result ≡ (if allowed bytes.now then Some (named bytes.now) else None) }
    {
        name_allowed(bytes).then(|| Name {
            len: bytes.len() as u8,
            bytes: padded(bytes),
        })
    }

    /// The bytes of the name, without the zeros after them.
    pub fn as_bytes(&self) -> &[u8]
        ensures { result.now ≡ name_text self.now }
    {
        let len = NAME_BYTES.min(self.len as usize);
        &self.bytes[..len]
    }

    // Whether zeros fill the places past the name's bytes.
    fn is_padded(&self) -> bool
        requires { self.now.len ≤ 24 }
        ensures { result ≡ is_padded self.now }
    {
        self.bytes == padded(self.as_bytes())
    }

    // Whether `new` could have made it.
    pub(crate) fn fits(&self) -> bool
        ensures { result ≡ name_fits self.now }
    {
        self.len as usize <= NAME_BYTES && name_allowed(self.as_bytes()) && self.is_padded()
    }
}
