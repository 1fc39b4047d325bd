// A trace, document 02, request 12: whether it is broken, and where; and what its steps hold.
#![tactic(auto)]

pub mod items;
pub mod steps;

// A trace that is broken, and where: the place of its first bad item.
#[derive(Clone, Copy, Debug, PartialEq, Eq)]
pub struct Broken {
    pub place: usize,
}
