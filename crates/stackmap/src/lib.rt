// Stack map sections: the definitions of the format and of its check, the laws of a section as data, and the numbers of the layout.
#![tactic(auto)]

pub mod layout;

// Which function owns the next record: the one before `next`, while `left` of its records are ahead.
#[derive(Clone, Copy)]
pub struct Turn {
    pub next: usize,
    pub left: u64,
}
