// The monthly report, document 02, request 10: the types, the definitions, and the laws of reports of many sections.
// `report_totals` has the code.
#![tactic(auto)]

// The locations of each kind, 1 to 5.
#[repr(C)]
#[derive(Clone, Copy)]
pub struct Kinds {
    pub register: u64,
    pub direct: u64,
    pub indirect: u64,
    pub constant: u64,
    pub pool: u64,
}

// What a report holds of the sections so far: all sections, the refused among them, and of the others the functions, records, statepoints,
// pairs, locations of each kind, the sum of known stack sizes and the number of unknown ones.
#[repr(C)]
#[derive(Clone, Copy)]
pub struct Totals {
    pub sections: u64,
    pub refused: u64,
    pub functions: u64,
    pub records: u64,
    pub statepoints: u64,
    pub pairs: u64,
    pub kinds: Kinds,
    pub stack: u64,
    pub unknown: u64,
}

// 0 and 0 and the new totals, or 34, a section's position, and the totals before it.
#[repr(C)]
#[derive(Clone, Copy)]
pub struct Reported {
    pub number: u64,
    pub place: u64,
    pub totals: Totals,
}
