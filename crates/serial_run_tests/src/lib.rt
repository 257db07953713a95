//! Tests of serial runs, from a script to the text that it prints, through the top call.
#![tactic(auto)]

#[cfg(test)]
mod language;
#[cfg(test)]
mod serial;
