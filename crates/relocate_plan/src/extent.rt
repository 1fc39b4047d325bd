// A frame's extent in the image (refusal 16).
ghost use Rattle.std.specs.Prelude.{◌≡◌};
ghost use Rattle.relocate.specs.Plan.{extent_right};

// A stack size that is not known.
const STACK_SIZE_UNKNOWN: u64 = 18446744073709551615;

// The test of refusal 16, of an extent of `size` bytes from the stack pointer.
#[tactic(auto, unfolding(relocate::specs::Plan::extent_right))]
pub fn extent_right(first: u64, long: usize, sp: u64, size: u64) -> bool
    ensures { result ≡ extent_right first long sp size }
{
    size != STACK_SIZE_UNKNOWN
        && sp >= first
        && sp - first <= long as u64
        && size <= long as u64 - (sp - first)
}
