// The recorder for C: each call takes numbers and slices that the caller owns, answers through references, and returns 0 or its refusal's number.
#![tactic(auto)]

mod bakes;
mod calls;
mod cold;
mod fault;
mod hot;
mod kinds;
mod lending;
mod masks;
mod probe;
mod sheet;
mod strips;
mod tables;
mod tokens;
