// What crosses the C boundary of a replay: its outcome as a struct of numbers.
#![tactic(auto)]

ghost use Rattle.std.specs.Prelude.{◌≡◌};
ghost use Rattle.treskibben_replays.specs.Answer.{outcome_answer};

use replay::Outcome;

// Kept: number and place in each answer are the C interface.
// 35 and the place of the trace's first bad item; or 0, 0 and whether a recorded answer differs (0 or 1), with the first answer item that does, counted
// from 0 among answers, and the number and the place or count of the answer that its frame gets now; 0 elsewhere.
#[repr(C)]
#[derive(Clone, Copy)]
pub struct ReplayAnswer {
    pub number: u64,
    pub place: u64,
    pub differs: u64,
    pub item: u64,
    pub now: u64,
    pub value: u64,
}

pub fn replay_answer(outcome: Outcome) -> ReplayAnswer
    ensures { result ≡ outcome_answer outcome }
{
    match outcome {
        Outcome::Broken(place) => ReplayAnswer {
            number: 35,
            place: place as u64,
            differs: 0,
            item: 0,
            now: 0,
            value: 0,
        },
        Outcome::Same => ReplayAnswer {
            number: 0,
            place: 0,
            differs: 0,
            item: 0,
            now: 0,
            value: 0,
        },
        Outcome::Differs(item, number, value) => ReplayAnswer {
            number: 0,
            place: 0,
            differs: 1,
            item: item as u64,
            now: number as u64,
            value: value as u64,
        },
    }
}
