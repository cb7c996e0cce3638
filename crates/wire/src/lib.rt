// Options on the wire: the walk over an option area, what is malformed, and what stands in a message.
#![tactic(auto)]

pub mod walk; // one step of the walk, and the numbers at a place
pub mod options; // the options of one code in an area, as an iterator
pub mod find; // how many options of a code an area has, the k-th, and the Client ID's stretch
pub mod says; // whether an option says what is looked for
pub mod check; // what is malformed
pub mod content; // the content of an IA Prefix
pub mod reader; // a message and a place in it, as one value
