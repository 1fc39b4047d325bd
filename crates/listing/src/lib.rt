// The answer of a conversion, for the two crates above that convert: `lister` (section to listing) and `builder` (listing to section).
// The definitions and the round trips are in specs/.
#![tactic(auto)]

ghost use Rattle.std.specs.Prelude.{◌≡◌, ◌≤◌};
ghost use Rattle.listing.specs.Layout.{version_item_size};
ghost use Rattle.listing.specs.Listing.{version_length};

pub mod numbers;

// A refusal's number and place, or 0, 0 and the length written.
#[derive(Clone, Copy)]
pub struct Conversion {
    pub number: u8,
    pub place: usize,
    pub written: usize,
}

// The bytes of the version's item; a listing of version 3 has none.
pub fn version_length(old: bool) -> usize
    ensures { (result ≡ version_length old) × (result ≤ version_item_size) }
{
    if old {
        return numbers::VERSION_ITEM_SIZE;
    }
    0
}
