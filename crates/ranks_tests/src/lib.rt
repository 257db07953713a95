//! Tests of public calls of the crates of the ranks: links, rounds, broadcasts, records, tables of lines, and the text of a
//! journal.
#![tactic(auto)]

#[cfg(test)]
mod journal;
#[cfg(test)]
mod lines;
#[cfg(test)]
mod links;
#[cfg(test)]
mod machine;
#[cfg(test)]
mod moves;
#[cfg(test)]
mod rounds;
