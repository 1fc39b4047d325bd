// The numbers of the layout, as specs/Layout.antt names them.

// Limits.
pub const SECTION_LEAST: usize = 32;

pub const SECTION_MOST: usize = 16777216;

// The header.
pub const HEADER_SIZE: usize = 28;

pub const VERSION: u8 = 2;

pub const HEADER_RESERVED_AT: usize = 1;

pub const HEADER_RESERVED_SIZE: usize = 3;

pub const HEADER_PADDING: usize = 4;

pub const CONSTANTS_OFFSET_AT: usize = 4;

pub const FRAMES_OFFSET_AT: usize = 8;

pub const REGISTERS_OFFSET_AT: usize = 12;

pub const RECORDS_OFFSET_AT: usize = 16;

pub const LOCATIONS_OFFSET_AT: usize = 20;

pub const LIVE_OUTS_OFFSET_AT: usize = 24;

pub const CONSTANT_SIZE: usize = 8;

pub const CONSTANT_ALIGN: usize = 8;

// A frame.
pub const FRAME_SIZE: usize = 28;

pub const FRAME_ALIGN: usize = 8;

pub const FUNCTION_SIZE_AT: usize = 8;

pub const STACK_SIZE_AT: usize = 12;

pub const FRAME_FLAGS_AT: usize = 16;

pub const FRAME_FLAGS_HIGH_AT: usize = 17;

pub const BASE_REGISTER_AT: usize = 18;

pub const REGISTER_COUNT_AT: usize = 20;

pub const REGISTER_INDEX_AT: usize = 22;

pub const RECORD_COUNT_AT: usize = 24;

pub const RECORD_INDEX_AT: usize = 26;

// A frame register.
pub const REGISTER_SIZE: usize = 6;

pub const REGISTER_ALIGN: usize = 4;

pub const REGISTER_OFFSET_AT: usize = 2;

pub const REGISTER_SIZE_AT: usize = 4;

pub const REGISTER_FLAGS_AT: usize = 5;

// A record.
pub const RECORD_SIZE: usize = 22;

pub const RECORD_ALIGN: usize = 8;

pub const INSTRUCTION_OFFSET_AT: usize = 8;

pub const CALL_SIZE_AT: usize = 12;

pub const RECORD_FLAGS_AT: usize = 13;

pub const LOCATION_COUNT_AT: usize = 14;

pub const LOCATION_INDEX_AT: usize = 16;

pub const LIVE_OUT_COUNT_AT: usize = 18;

pub const LIVE_OUT_INDEX_AT: usize = 20;

// A location.
pub const LOCATION_SIZE: usize = 8;

pub const LOCATION_ALIGN: usize = 4;

pub const LOCATION_RESERVED_AT: usize = 1;

pub const LOCATION_REGISTER_AT: usize = 2;

pub const LOCATION_OFFSET_AT: usize = 4;

// A live-out.
pub const LIVE_OUT_SIZE: usize = 4;

pub const LIVE_OUT_ALIGN: usize = 2;

pub const LIVE_OUT_RESERVED_AT: usize = 2;

pub const LIVE_OUT_SIZE_AT: usize = 3;

// A byte of which only the lowest bits may be set: none, one or four of them.
pub const BELOW_NONE: u8 = 1;

pub const BELOW_ONE: u8 = 2;

pub const BELOW_FOUR: u8 = 16;
