//! Tests of the public calls of the base crates, a module for each crate. There is nothing else here, so that no base crate
//! is proved again with its tests.
#![tactic(auto)]

#[cfg(test)]
mod checks;
#[cfg(test)]
mod code;
#[cfg(test)]
mod data;
#[cfg(test)]
mod grids;
#[cfg(test)]
mod kernels;
#[cfg(test)]
mod maps;
#[cfg(test)]
mod outside;
#[cfg(test)]
mod words;
