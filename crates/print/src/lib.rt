// Messages written into lent bytes. Each writer puts its bytes in at a place and gives the place after them.
#![tactic(auto)]

pub mod able; // able.rt: which values have an encoding
pub mod lone; // lone.rt: one option that stands alone, of any values and into any room
pub mod message; // message.rt: whole messages
pub mod pd; // pd.rt: IA_PD, IA Prefix, PD Exclude
pub mod put; // put.rt: numbers, options, Status Codes
pub mod size; // size.rt: how long the options get
