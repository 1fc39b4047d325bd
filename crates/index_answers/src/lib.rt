// The answers for a list of addresses, written one after the other.
// No entry point: it requires that the list is the section's index, and that there is room for the answers.
#![tactic(auto)]

ghost use Rattle.std.specs.Prelude.{◌≡◌, ◌+◌, ◌*◌, ◌≤◌, length};
ghost use Rattle.std.proofs.lemmas.List.Edits.{sets};
ghost use Rattle.stackmap.specs.Section.{entries};
ghost use Rattle.index.specs.Index.{answers_of};
ghost use Rattle.index_owner.specs.Owner.{Marked};
ghost use Rattle.index_lookup.specs.Looked.{five, Indexed};

use index_lookup::Looked;

// Writes the five numbers of one answer.
fn put(answers: &mut [u64], at: usize, looked: Looked)
    requires { at + 5 ≤ length answers.old }
    ensures { answers.new ≡ sets answers.old at (five looked) }
{
    answers[at..at + 5].copy_from_slice(&[
        looked.number,
        0,
        looked.index,
        looked.function,
        looked.sharing,
    ]);
}

// All answers, one after the other.
fn answer_marked(
    s: &[u8],
    index: &[u64],
    n: usize,
    marks: &[u32],
    count: usize,
    addresses: &[u64],
    answers: &mut [u64],
)
    requires { Indexed s.now index.now n × Marked s.now marks.now count × (5 * length addresses.now ≤ length answers.old) }
    ensures { answers.new ≡ sets answers.old 0 (answers_of (entries s.now) addresses.now) }
{
    for (i, &address) in addresses.iter().enumerate() {
        let looked = index_lookup::look_up(s, index, n, marks, count, address);
        put(answers, 5 * i, looked);
    }
}

// The same, with marks at the functions.
pub fn answer_all(s: &[u8], index: &[u64], n: usize, addresses: &[u64], answers: &mut [u64])
    requires { Indexed s.now index.now n × (5 * length addresses.now ≤ length answers.old) }
    ensures { answers.new ≡ sets answers.old 0 (answers_of (entries s.now) addresses.now) }
{
    let mut marks = [0u32; index_owner::MARKS];
    let count = index_owner::mark(s, &mut marks);
    answer_marked(s, index, n, &marks, count, addresses, answers);
}
