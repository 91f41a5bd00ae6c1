// What listing a chip leaves of the memory that it is lent, and its refusals in their order.

#![tactic(auto)]

#[cfg(test)]
mod lent;
#[cfg(test)]
mod power;
