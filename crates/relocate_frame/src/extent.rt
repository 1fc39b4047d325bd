// The image (refusal 13).
ghost use Rattle.std.specs.Prelude.{◌≡◌};
ghost use Rattle.relocate.specs.Plan.{image_right};

use stackmap::layout;

const IMAGE_MOST: usize = 1048576;

// The test of refusal 13, of an image of `long` bytes from the address `first`.
#[tactic(auto, unfolding(relocate::specs::Plan::image_right))]
pub fn image_right(first: u64, long: usize) -> bool
    ensures { result ≡ image_right first long }
{
    long <= IMAGE_MOST && long as u64 <= layout::ADDRESS_MOST - first
}
