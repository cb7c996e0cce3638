// The router: its public operations on the lent state. Each gives the length of what it wrote, or why it refused.
#![tactic(auto)]

pub mod asking; // asking.rt: sending, resending, abandoning
pub mod hearing; // hearing.rt: receiving
pub mod judging; // judging.rt: what is refused
pub mod opening; // opening.rt: start
pub mod showing; // showing.rt: what is held
pub mod writing; // writing.rt: the message of the open exchange
