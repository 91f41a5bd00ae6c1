// Lent memory that is written from its start on. Not the library's `Cursor`, whose writes may come short where room is
// asked for here, and no `fmt::Write`: a name is bytes and no `str`.

/// The memory, and how much of it is written.
#[derive(Drop)]
pub(crate) struct Pen<'a> {
    pub(crate) out: &'a mut [u8],
    pub(crate) end: usize,
}
