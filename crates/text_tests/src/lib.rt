//! Tests of the public calls of `script_text` and of `journal_text`, in a crate of their own, so that those two are proved once.
#![tactic(auto)]

#[cfg(test)]
mod bounds;
#[cfg(test)]
mod checks;
#[cfg(test)]
mod fields;
#[cfg(test)]
mod files;
#[cfg(test)]
mod flips;
#[cfg(test)]
mod growing;
#[cfg(test)]
mod journals;
#[cfg(test)]
mod pairs;
#[cfg(test)]
mod scripts;
#[cfg(test)]
mod values;
