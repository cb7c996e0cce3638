// What a message does that isn't refused.
#![tactic(auto)]

pub mod answer; // answer.rt: the answer written
pub mod carry; // carry.rt: a plan carried out in the lent table
pub mod head; // head.rt: the answer's type, number and status
pub mod serve; // serve.rt: the message served
