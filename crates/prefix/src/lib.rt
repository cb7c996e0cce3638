// Prefixes in code: by their upper 64 bits, as sixteen bytes, and the excluded one inside a delegation.
#![tactic(auto)]

pub mod exclude; // exclude.rt: PD Exclude (RFC 6603)
pub mod half; // half.rt: by the upper 64 bits, as the table keeps delegations
pub mod last; // last.rt: sixteen bytes by their upper half, and the last /64 of a delegation
pub mod whole; // whole.rt: sixteen bytes, as a message writes them
