//! Tests of wire formats, of the multiplexer, and of what a stream has, over public contracts alone: a test here is
//! proved against what the crates promise, and not against their bodies. What a built program shows is a case of cases/.
#![tactic(auto)]

#[cfg(test)]
mod tests;
