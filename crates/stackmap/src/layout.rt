// The numbers of the layout, as specs/Layout.antt names them. Where the versions differ, `old` is true for version 1.
ghost use Rattle.std.specs.Prelude.{◌≡◌, ◌≤◌};
ghost use Rattle.stackmap.specs.Layout.{function_size, location_size, locations_padding};

// The header and the tables.
pub const HEADER_SIZE: usize = 16;

pub const NUM_FUNCTIONS_AT: usize = 4;

pub const NUM_CONSTANTS_AT: usize = 8;

pub const NUM_RECORDS_AT: usize = 12;

// A function; that of version 1 has no record count.
pub const FUNCTION_SIZE: usize = 24;

pub const OLD_FUNCTION_SIZE: usize = 16;

pub const STACK_SIZE_AT: usize = 8;

pub const RECORD_COUNT_AT: usize = 16;

pub const CONSTANT_SIZE: usize = 8;

pub const VERSION: u8 = 3;

pub const OLD_VERSION: u8 = 1;

pub const SECTION_MOST: usize = 16777216;

// A record.
pub const INSTRUCTION_OFFSET_AT: usize = 8;

pub const RECORD_HEAD_SIZE: usize = 16;

pub const FLAGS_AT: usize = 12;

pub const FLAGS_SIZE: usize = 2;

pub const NUM_LOCATIONS_AT: usize = 14;

pub const LIVE_OUTS_HEAD_ZEROS: usize = 2;

pub const LIVE_OUTS_HEAD_SIZE: usize = 4;

// A location, and that of version 1.
pub const LOCATION_SIZE: usize = 12;

pub const LOCATION_SIZE_AT: usize = 2;

pub const LOCATION_REGISTER_AT: usize = 4;

pub const LOCATION_ZEROS_AT: usize = 6;

pub const LOCATION_OFFSET_AT: usize = 8;

pub const OLD_LOCATION_SIZE: usize = 8;

pub const OLD_LOCATION_SIZE_AT: usize = 1;

pub const OLD_LOCATION_REGISTER_AT: usize = 2;

pub const OLD_LOCATION_OFFSET_AT: usize = 4;

pub const LIVE_OUT_SIZE: usize = 4;

pub const LIVE_OUT_ZERO_AT: usize = 2;

pub const LIVE_OUT_SIZE_AT: usize = 3;

pub const KIND_LEAST: u8 = 1;

pub const KIND_MOST: u8 = 5;

pub const KIND_CONSTANT: u8 = 4;

pub const KIND_CONST_INDEX: u8 = 5;

pub const NEGATIVE_FROM: u32 = 2147483648;

pub const ADDRESS_MOST: u64 = 18446744073709551615;

pub fn function_size(old: bool) -> usize
    ensures { (result ≡ function_size old) × (result ≤ 24) }
{
    if old {
        return OLD_FUNCTION_SIZE;
    }
    FUNCTION_SIZE
}

pub fn location_size(old: bool) -> usize
    ensures { (result ≡ location_size old) × (result ≤ 12) }
{
    if old {
        return OLD_LOCATION_SIZE;
    }
    LOCATION_SIZE
}

// The padding after `count` locations.
pub fn locations_padding(old: bool, count: usize) -> usize
    ensures { (result ≡ locations_padding old count) × (result ≤ 4) }
{
    if old {
        return 0;
    }
    count % 2 * 4
}
