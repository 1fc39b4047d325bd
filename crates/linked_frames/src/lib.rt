// The frames of a thread over a linked section, each by its own map.
// No entry point: it requires that the maps are right and the frames' records are found.
#![tactic(auto)]

ghost use Rattle.std.specs.Prelude.{◌*◌, ◌-◌, ◌<◌, ◌≤◌, ◌≡◌, length, get_or};
ghost use Rattle.moves.specs.Window.{part};
ghost use Rattle.thread.specs.Thread.{frame_numbers};
ghost use Rattle.linked_moves.specs.Code.{maps_in, LookedIn};
ghost use Rattle.linked_frames.specs.Sites.{SiteOf};

use linked_moves::{SITE_NUMBERS, SITES_LENGTH};
use questions::Found;
use thread::{FRAME_NUMBERS, FRAMES_MOST};
use thread_search::search::HITS_LENGTH;

pub mod frames;
pub mod map;

// 10 or 15; or 0, the bytes of the map that has the one record with a frame's address, and what the map says of this address.
// Kept: no Result, which is no plainer here: `linked_extents` knows that its frames have a site, and would match an error that never comes.
#[derive(Clone, Copy)]
pub struct Site {
    pub number: u8,
    pub from: usize,
    pub to: usize,
    pub found: Found,
}

impl Site {
    // The bytes of its map.
    pub fn bytes<'a>(self, s: &'a [u8]) -> &'a [u8]
        requires { (self.from ≤ self.to) × (self.to ≤ length s.now) }
        ensures { result.now ≡ part s.now self.from (self.to - self.from) }
    {
        &s[self.from..self.to]
    }
}

// A refusal.
fn nowhere(number: u8) -> Site
    ensures { result.number ≡ number }
{
    Site {
        number,
        from: 0,
        to: 0,
        found: Found {
            number,
            place: 0,
            index: 0,
            function: 0,
            sharing: 0,
            first: 0,
        },
    }
}

// The site of the frame at the position k: records with its address count over all maps.
pub fn site_of(
    s: &[u8],
    frames: &[u64],
    count: usize,
    keys: &[u64; FRAMES_MOST],
    hits: &[usize; HITS_LENGTH],
    sites: &[usize; SITES_LENGTH],
    k: usize,
) -> Site
    requires { LookedIn s.now (maps_in s.now) frames.now count keys.now hits.now sites.now × (k < count) }
    ensures { SiteOf s.now (maps_in s.now) (get_or frames.now (frame_numbers * k) 0) result }
{
    let i = sorted::lower_bound(keys, count, frames[FRAME_NUMBERS * k]);
    let h = thread_marks::hits_at(hits, i);
    match h.sharing {
        0 => nowhere(10),
        1 => {
            let p = SITE_NUMBERS * i;
            let from = sites[p];
            Site {
                from,
                to: from + sites[p + 1],
                found: Found {
                    number: 0,
                    place: 0,
                    index: h.index,
                    function: h.function,
                    sharing: h.sharing,
                    first: h.first,
                },
                number: 0,
            }
        }
        _ => nowhere(15),
    }
}
