//! Tests of the public calls of `serial_machine` on matrices, in a crate of their own, so that it is proved once. What whole
//! scripts print is tested above.
#![tactic(auto)]

#[cfg(test)]
mod checks;
#[cfg(test)]
mod inverses;
#[cfg(test)]
mod solves;
