// The parts of a message in code, as its readers give them and its writers take them.
#![tactic(auto)]

// An IA Prefix without its statuses; where cut is 0 it has no excluded prefix.
#[derive(Clone, Copy)]
pub struct IaPrefix {
    pub preferred: u32,
    pub valid: u32,
    pub length: usize,
    pub bits: [u8; 16],
    pub cut: usize,
    pub out: [u8; 16],
}

// An IA_PD with the first `count` of the prefixes, and with the status where it says one.
#[derive(Clone, Copy)]
pub struct Pd {
    pub iaid: u32,
    pub t1: u32,
    pub t2: u32,
    pub count: usize,
    pub prefixes: [IaPrefix; 5],
    pub says: bool,
    pub status: usize,
}
