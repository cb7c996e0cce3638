// What is to be done about one IA_PD: decided first, then carried out and answered.
#![tactic(auto)]

// A delegation by the upper 64 bits of its prefix and its length, and whether its last /64 is excluded.
#[derive(Clone, Copy)]
pub struct Delegation {
    pub prefix: u64,
    pub length: u64,
    pub excluded: bool,
}

#[derive(Clone, Copy)]
pub enum Plan {
    // The delegation is offered.
    Offer(Delegation),
    // It is bound in a new record with that end, and offered.
    Bind {
        lease: Delegation,
        end: u64,
    },
    // Record `at` gets that end; its delegation is offered, and the other listed prefixes are returned if `back` says so.
    Extend {
        at: usize,
        end: u64,
        lease: Delegation,
        back: bool,
    },
    // Record `at` is given up.
    Free(usize),
    // Every listed prefix is returned.
    Return,
    // A status is said.
    Say(usize),
    Silence,
}
