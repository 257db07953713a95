//! How many words ranks hold while a phase is driven. Nothing is computed here.
#![tactic(auto)]
