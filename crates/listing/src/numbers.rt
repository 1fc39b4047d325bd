// The numbers of the listing, as specs/Layout.antt names them.

// The kinds of items.
pub const FUNCTION_KIND: u8 = 1;

pub const CONSTANT_KIND: u8 = 2;

pub const RECORD_KIND: u8 = 3;

pub const LOCATION_KIND: u8 = 4;

pub const LIVE_OUT_KIND: u8 = 5;

pub const END_KIND: u8 = 6;

pub const VERSION_KIND: u8 = 7;

// The length of an item, with the byte of its kind.
pub const FUNCTION_ITEM_SIZE: usize = 25;

pub const CONSTANT_ITEM_SIZE: usize = 9;

pub const RECORD_ITEM_SIZE: usize = 13;

pub const LOCATION_ITEM_SIZE: usize = 10;

pub const LIVE_OUT_ITEM_SIZE: usize = 4;

pub const END_ITEM_SIZE: usize = 1;

pub const VERSION_ITEM_SIZE: usize = 2;

// Where a field stands in its item.
pub const LISTED_ADDRESS_AT: usize = 1;

pub const LISTED_STACK_SIZE_AT: usize = 9;

pub const LISTED_RECORD_COUNT_AT: usize = 17;

pub const LISTED_CONSTANT_AT: usize = 1;

pub const LISTED_ID_AT: usize = 1;

pub const LISTED_INSTRUCTION_OFFSET_AT: usize = 9;

pub const LISTED_LOCATION_KIND_AT: usize = 1;

pub const LISTED_LOCATION_SIZE_AT: usize = 2;

pub const LISTED_LOCATION_REGISTER_AT: usize = 4;

pub const LISTED_LOCATION_OFFSET_AT: usize = 6;

pub const LISTED_LIVE_OUT_REGISTER_AT: usize = 1;

pub const LISTED_LIVE_OUT_SIZE_AT: usize = 3;

// The longest listing, and the most locations or live-outs in a record.
pub const LISTING_MOST: usize = 33554432;

pub const ITEMS_MOST: usize = 65535;

// The largest size of a location of version 1.
pub const OLD_SIZE_MOST: u16 = 255;
