//! No recovery of a script's runs takes more records than its bound counts for one. The law is the contract of a function that does
//! nothing.
#![tactic(auto)]

pub mod recoveries;
