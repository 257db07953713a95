//! Tests of public calls of `block_world`: a `World` in which losses fall, and its rounds.
//! Records are made one after another by `play`, whose condition is a test that is computed: each record is legal in its turn. A round of
//! each builder runs on four ranks, of which two were fed a strip (`fed_strips`).
#![tactic(auto)]

#[cfg(test)]
mod builders;
#[cfg(test)]
mod fed_strips;
#[cfg(test)]
mod fixture;
#[cfg(test)]
mod play;
#[cfg(test)]
mod rounds;
#[cfg(test)]
mod tests;
#[cfg(test)]
mod word;
