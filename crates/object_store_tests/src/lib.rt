// Batches on a table in lent memory, up to its limit and past it.

#![tactic(auto)]

#[cfg(test)]
mod batches;
