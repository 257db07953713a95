//! Tests of runs on the ranks, from words to bytes, through the top call.
#![tactic(auto)]

#[cfg(test)]
mod losses;
#[cfg(test)]
mod ranks;
#[cfg(test)]
mod runs;
#[cfg(test)]
mod schedules;
