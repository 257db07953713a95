//! What a phase leaves alone, the words that it adds, and the code law of its matrix by groups. Nothing is computed here.
#![tactic(auto)]
