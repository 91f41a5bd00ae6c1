// Runs of the three kinds of flash, compared with what a plain walk over the bytes says.

#![tactic(auto)]

#[cfg(test)]
mod fuse;
#[cfg(test)]
mod kinds;
#[cfg(test)]
mod sizes;
