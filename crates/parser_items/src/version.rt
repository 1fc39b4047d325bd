// The item with which a listing of version 1 begins.
ghost use Rattle.std.specs.Prelude.{◌≡◌};
ghost use Rattle.listing.specs.Listing.{listed_old};

use listing::numbers;
use stackmap::layout;

// Whether the listing is of version 1.
pub fn listed_old(l: &[u8]) -> bool
    ensures { result ≡ listed_old l.now }
{
    l.starts_with(&[numbers::VERSION_KIND, layout::OLD_VERSION])
}
