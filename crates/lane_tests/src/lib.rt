//! Tests of the public calls of `blas_lanes`, in a crate of their own, so that it is proved once.
#![tactic(auto)]

#[cfg(test)]
mod lanes;
