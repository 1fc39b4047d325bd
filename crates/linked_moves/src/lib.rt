// A whole thread in one call over a linked section: the definitions and the laws.
#![tactic(auto)]

use thread::FRAMES_MOST;

// The numbers of the map in which an address was found: its first byte in the section, and its length.
pub const SITE_NUMBERS: usize = 2;

pub const SITES_LENGTH: usize = SITE_NUMBERS * FRAMES_MOST;
