// Texts, written one after another.
ghost use Rattle.std.specs.Prelude.{◌+◌, ◌≤◌, ◌∷◌, length, decimal};
ghost use Rattle.page.specs.Names.{name_text};
ghost use Rattle.listing.specs.Writes.{Adds};

use crate::pen::Pen;
use page::Name;

impl Pen<'_> {
    // Writes the bytes.
    pub(crate) fn put(&mut self, bytes: &[u8])
        requires { self.old.end + length bytes.now ≤ length self.old.out.now }
        ensures { Adds self.old bytes.now self.new }
    {
        let end = self.end + bytes.len();
        self.out[self.end..end].copy_from_slice(bytes);
        self.end = end;
    }

    // Writes the number without leading zeros. Not by the kit's `itoa`: a listing's digits would rest on what is proved elsewhere.
    pub(crate) fn put_decimal(&mut self, number: u16)
        requires { self.old.end + length (decimal number) ≤ length self.old.out.now }
        ensures { Adds self.old (decimal number) self.new }
    {
        if number < 10 {
            self.put(&[b'0' + number as u8]);
        } else {
            self.put_decimal(number / 10);
            self.put(&[b'0' + (number % 10) as u8]);
        }
    }

    // Writes the last step of a path.
    pub(crate) fn put_name(&mut self, name: &Name)
        requires { self.old.end + 25 ≤ length self.old.out.now }
        ensures { Adds self.old (47 ∷ name_text name.now) self.new }
    {
        self.put(b"/");
        self.put(name.as_bytes());
    }
}
