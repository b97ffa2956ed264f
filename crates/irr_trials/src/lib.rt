//! Trials of the whole program, over sources and sinks in memory: streams that fail, inputs that are cut, reports that are
//! forged, the largest inputs, and the examples. It has tests alone.
#![tactic(auto)]

#[cfg(test)]
mod tests;
