// One address looked up in a section's index: by halving.
// No entry point: it requires that the list is the section's index.
#![tactic(auto)]

ghost use Rattle.std.specs.Prelude.{◌≡◌, ◌+◌, ◌*◌};
ghost use Rattle.stackmap.specs.Section.{entries};
ghost use Rattle.questions.specs.Questions.{first_of, with_address};
ghost use Rattle.sorted_pairs.specs.Pairs.{rank_at, LowerBy};
ghost use Rattle.index.specs.Index.{five_numbers};
ghost use Rattle.index_owner.specs.Owner.{Marked};
ghost use Rattle.index_lookup.specs.Looked.{five, Indexed};

const NOT_FOUND: u64 = 10;

// What is written for one address: a refusal's number, or 0, and its place, which is 0; and the record, its function and how many share
// the address.
// Kept: what may not change, `five` in specs/Looked.antt, which the clause of `look_up` names, reads these four numbers.
#[derive(Clone, Copy)]
pub struct Looked {
    pub number: u64,
    pub index: u64,
    pub function: u64,
    pub sharing: u64,
}

// How many pairs are not above the address, where `low` are below it. In most cases none or one has it, and the next two pairs tell so;
// else by a second halving.
fn past(s: &[u8], index: &[u64], n: usize, address: u64, low: usize) -> usize
    requires { Indexed s.now index.now n × LowerBy (rank_at index.now) n (address * 18446744073709551616 + 0) low }
    ensures { LowerBy (rank_at index.now) n (address * 18446744073709551616 + 18446744073709551615) result }
{
    if low + 1 < n {
        if index[2 * low] != address {
            return low;
        }
        if index[2 * (low + 1)] != address {
            return low + 1;
        }
    }
    sorted_pairs::lower(index, n, address, u64::MAX)
}

// One address, in an index of n records.
pub fn look_up(
    s: &[u8],
    index: &[u64],
    n: usize,
    marks: &[u32],
    count: usize,
    address: u64,
) -> Looked
    requires { Indexed s.now index.now n × Marked s.now marks.now count }
    ensures { five result ≡ five_numbers (first_of (with_address address (entries s.now))) }
{
    let low = sorted_pairs::lower(index, n, address, 0);
    let high = past(s, index, n, address, low);
    if low == high {
        return Looked {
            number: NOT_FOUND,
            index: 0,
            function: 0,
            sharing: 0,
        };
    }
    let number = index[2 * low + 1];
    let function = index_owner::owner_of(s, marks, count, number);
    Looked {
        number: 0,
        index: number,
        function: function as u64,
        sharing: (high - low) as u64,
    }
}
