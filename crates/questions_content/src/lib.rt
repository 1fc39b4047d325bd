// What a location says by itself: its four numbers, its constant, and where its value is held.
// No entry point: it requires bytes that are inside, which a record that stands there has shown.
#![tactic(auto)]

ghost use Rattle.std.specs.Prelude.{◌≡◌, ℕ, ◌+◌, ◌≤◌, length};
ghost use Rattle.stackmap.specs.Layout.{location_size};
ghost use Rattle.stackmap.specs.Section.{records_at, read_location, read_section};
ghost use Rattle.questions.specs.Questions.{constant_of, content_place};

use questions::ContentPlace;
use stackmap::layout;
use stackmap_tables::tables;

// What is added to the 32 bits of a negative number to make its 64 bits: 2^64 - 2^32.
const SIGN: u64 = 18446744069414584320;

// The kinds whose value is held in a register, and in memory.
const KIND_REGISTER: u8 = 1;

const KIND_INDIRECT: u8 = 3;

// The content place of a location with this kind.
pub fn content_place(kind: u8) -> ContentPlace
    ensures { result ≡ content_place kind }
{
    match kind {
        KIND_REGISTER => ContentPlace::Register,
        KIND_INDIRECT => ContentPlace::Memory,
        _ => ContentPlace::Nowhere,
    }
}

// The 64-bit constant of a location with this kind and offset.
pub fn constant(s: &[u8], kind: u8, offset: u32) -> u64
    requires { records_at s.now ≤ length s.now }
    ensures { (n g : ℕ) → result ≡ constant_of (read_section s.now).constants (record { kind = kind; size = n; register = g; offset = offset }) }
{
    match kind {
        layout::KIND_CONSTANT if offset < layout::NEGATIVE_FROM => u64::from(offset),
        layout::KIND_CONSTANT => u64::from(offset) + SIGN,
        layout::KIND_CONST_INDEX if offset < wire::u32_at(s, layout::NUM_CONSTANTS_AT) => {
            let functions = wire::u32_at(s, layout::NUM_FUNCTIONS_AT) as usize;
            wire::u64_at(
                s,
                layout::HEADER_SIZE
                    + layout::function_size(tables::is_old(s)) * functions
                    + layout::CONSTANT_SIZE * (offset as usize),
            )
        }
        _ => 0,
    }
}

// The four numbers of a location.
#[derive(Clone, Copy)]
pub struct LocationWords {
    pub kind: u8,
    pub size: u16,
    pub register: u16,
    pub offset: u32,
}

// The location at `at`.
pub fn location_fields(s: &[u8], old: bool, at: usize) -> LocationWords
    requires { at + location_size old ≤ length s.now }
    ensures { read_location old s.now at ≡ record { kind = result.kind; size = result.size; register = result.register; offset = result.offset } }
{
    if old {
        return LocationWords {
            kind: s[at],
            size: u16::from(s[at + layout::OLD_LOCATION_SIZE_AT]),
            register: wire::u16_at(s, at + layout::OLD_LOCATION_REGISTER_AT),
            offset: wire::u32_at(s, at + layout::OLD_LOCATION_OFFSET_AT),
        };
    }
    LocationWords {
        kind: s[at],
        size: wire::u16_at(s, at + layout::LOCATION_SIZE_AT),
        register: wire::u16_at(s, at + layout::LOCATION_REGISTER_AT),
        offset: wire::u32_at(s, at + layout::LOCATION_OFFSET_AT),
    }
}
