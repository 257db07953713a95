//! Tests of the top call: its words, refusals, faults of the outside, and which files it reads. Those of whole runs stand in run_tests and serial_run_tests.
#![tactic(auto)]

#[cfg(test)]
mod calls;
#[cfg(test)]
mod faults;
#[cfg(test)]
mod refusals;
#[cfg(test)]
mod serial_words;
#[cfg(test)]
mod shelf_tests;
