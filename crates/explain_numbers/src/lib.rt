// The numbers of a row: a reason and a slot as numbers, and these put into the list.
// No entry point: it requires room in the list.
#![tactic(auto)]

ghost use Rattle.std.specs.Prelude.{◌≡◌, [], ◌∷◌, ◌+◌, ◌^◌, ◌≤◌, ◌<◌, length};
ghost use Rattle.std.proofs.lemmas.List.Edits.{sets};
ghost use Rattle.moves.specs.Arrays.{registers_from};
ghost use Rattle.explain_numbers.specs.Numbers.{numbers_of, sort_at, place_at};

use explain::Reason;
use moves::{POINTER_SIZE, REGISTERS_FROM};

// A reason as four numbers: its own, and of moved the pair, the old base and the new base.
#[derive(Clone, Copy)]
pub struct Told {
    pub reason: u64,
    pub pair: u64,
    pub old: u64,
    pub new: u64,
}

// A reason that has no more to tell.
pub fn plain(reason: u64) -> Told
    ensures { result ≡ record { reason = reason; pair = 0; old = 0; new = 0 } }
{
    Told {
        reason,
        pair: 0,
        old: 0,
        new: 0,
    }
}

impl From<Reason> for Told {
    ghost use Rattle.explain.specs.Rows.{reason_numbers};
    ghost use Rattle.explain_numbers.specs.Numbers.{numbers_of};

    ghost from_gives = { λ why told. numbers_of told ≡ reason_numbers why };

    fn from(why: Reason) -> Told {
        match why {
            Reason::Unlisted => plain(0),
            Reason::OnlyBase => plain(1),
            Reason::NullBase => plain(2),
            Reason::Moved(pair, old, new) => Told {
                reason: 3,
                pair: pair as u64,
                old,
                new,
            },
            Reason::Refused(_, _) => plain(4),
        }
    }
}

// Whether the slot is in memory or a register.
pub fn sort(x: usize) -> u64
    ensures { result ≡ sort_at x }
{
    if x < REGISTERS_FROM { 1 } else { 2 }
}

// Its address, or its register's number.
pub fn place(x: usize, sp: u64) -> u64
    requires { x < registers_from → sp + x < 2 ^ 64 }
    ensures { result ≡ place_at sp x }
{
    if x < REGISTERS_FROM {
        sp + x as u64
    } else {
        ((x - REGISTERS_FROM) / POINTER_SIZE) as u64
    }
}

// The seven numbers of a slot, from the place `to` on.
pub fn put_slot(rows: &mut [u64], to: usize, sort: u64, place: u64, content: u64, told: Told)
    requires { to + 7 ≤ length rows.old }
    ensures { rows.new ≡ sets rows.old to (sort ∷ place ∷ content ∷ numbers_of told) }
{
    let Told {
        reason,
        pair,
        old,
        new,
    } = told;
    rows[to..to + 7].copy_from_slice(&[sort, place, content, reason, pair, old, new]);
}

// The first two numbers of a row.
pub fn put_head(rows: &mut [u64], to: usize, position: usize, pair: usize)
    requires { to + 2 ≤ length rows.old }
    ensures { rows.new ≡ sets rows.old to (position ∷ pair ∷ []) }
{
    rows[to..to + 2].copy_from_slice(&[position as u64, pair as u64]);
}
