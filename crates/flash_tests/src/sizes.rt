// What the script and the images are measured in.
pub(crate) const BLOCK_BYTES: usize = 4096;
