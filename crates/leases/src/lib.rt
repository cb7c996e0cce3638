// The records of a table in its lent bytes, changed in place: each function leaves the representation of the changed table.
#![tactic(auto, using(crate::proofs::Laws::sound_size, crate::proofs::Laws::sound_few))]

pub mod empty; // empty.rt: a table with no record
pub mod ended; // ended.rt: the last time set, and every ended record dropped
pub mod records; // records.rt: one record extended, put last, or taken out
