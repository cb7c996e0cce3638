// The box: its public operations on the lent table. Each answers the length of what it wrote (a count, where that is asked), or
// why it refused.
#![tactic(auto)]

pub mod handling; // handling.rt: handle
pub mod opening; // opening.rt: start
pub mod showing; // showing.rt: how many records are live, and one record
