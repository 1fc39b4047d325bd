// The answers of a replay, compared with those that were recorded.
// No entry point: its functions require that the trace holds the steps, which `measure` of replay_trace ensures.
#![tactic(auto)]

ghost use Rattle.std.specs.Prelude.{◌≡◌, ◌-◌, ◌*◌, ◌<◌, ◌≤◌};
ghost use Rattle.replay.specs.Layout.{step_size};
ghost use Rattle.replay.specs.Trace.{step_at};
ghost use Rattle.replay.specs.Replay.{value_of};
ghost use Rattle.replay.specs.Code.{Holds, or_else, compared1, compared_alike};

use moves::Move;
use replay::{FRAME_SIZE, Outcome, Recorded, STEP_SIZE};
use replay_trace::steps;

// Of an answer 0 the count, else the place.
fn value_of(m: Move) -> usize
    ensures { result ≡ value_of m }
{
    if m.number == 0 { m.count } else { m.place }
}

// The answer of the step number i, and the one that was recorded.
fn judge(i: usize, recorded: Recorded, m: Move) -> Outcome
    ensures { result ≡ compared1 i recorded m }
{
    let value = value_of(m);
    if recorded.number == m.number && recorded.value == value {
        Outcome::Same
    } else {
        Outcome::Differs(i, m.number, value)
    }
}

// What is known already, or else what comes.
fn first(kept: Outcome, next: Outcome) -> Outcome
    ensures { result ≡ or_else kept next }
{
    match kept {
        Outcome::Same => next,
        known => known,
    }
}

// What is known after the step number i, whose frame got this answer.
pub fn note(t: &[u8], n: usize, i: usize, m: Move, kept: Outcome) -> Outcome
    requires { Holds t.now n × (i < n) }
    ensures { result ≡ or_else kept (compared1 i (step_at t.now (step_size * i)).recorded m) }
{
    let at = STEP_SIZE * i;
    first(kept, judge(i, steps::recorded_at(t, at + FRAME_SIZE), m))
}

// What is known after all steps from number i on, whose frames all got this answer.
pub fn alike(t: &[u8], n: usize, i: usize, m: Move, kept: Outcome) -> Outcome
    requires { Holds t.now n × (i ≤ n) }
    ensures { result ≡ or_else kept (compared_alike t.now (n - i) i m) }
{
    let mut known = kept;
    for k in i..n {
        known = note(t, n, k, m, known);
    }
    known
}
