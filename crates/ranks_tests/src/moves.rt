//! Broadcasts and combines (blacs_comm).
mod broadcasts;
mod cases;
mod cell;
mod combines;
