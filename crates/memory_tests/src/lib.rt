//! Tests of public calls of rank_slots and rank_memory.
#![tactic(auto)]

#[cfg(test)]
mod memory;
#[cfg(test)]
mod slots;
