//! Rounds run under any order (rank_run).
mod counter;
mod plain;
mod scheduled;
mod word;
