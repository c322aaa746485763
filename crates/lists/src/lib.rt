// Lists given by what stands at each place, and the few functions on slices that every crate shares.
#![tactic(auto)]

pub mod slices;
