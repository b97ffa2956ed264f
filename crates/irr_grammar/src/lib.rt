//! Where a text leaves a grammar: the notion that all readers share.
#![tactic(auto)]
