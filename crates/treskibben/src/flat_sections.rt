// The exported functions on flat sections, for C and Rust, and nothing else. Numbers count from 0 in the whole array; the place of every
// refusal is 0.
ghost use Rattle.std.specs.Prelude.{◌≡◌};
ghost use Rattle.flat_check.specs.Check.{flat_check};
ghost use Rattle.flat_match.specs.Find.{by_address};
ghost use Rattle.flat_read.specs.Read.{constant_answer, frame_answer, register_answer, record_answer, location_answer, live_out_answer};
ghost use Rattle.treskibben_flat.specs.Flat.{checked, matched, constant_of, frame_of, register_of, record_of, location_of, live_out_of};

use treskibben_flat as answers;

// The check of a flat section: refusals 36 to 40, or accepted with the value 0.
#[unsafe(no_mangle)]
pub extern "C" fn treskibben_flat_check(section: &[u8]) -> answers::Answer
    ensures { result ≡ checked (flat_check section.now) }
{
    answers::checked_answer(flat_check::check(section))
}

// The lookup by address: 36 to 40, 41 exactly if no record of any frame is there, or the first in frame order, then record order.
#[unsafe(no_mangle)]
pub extern "C" fn treskibben_flat_find(section: &[u8], address: u64) -> answers::Match
    ensures { result ≡ matched (by_address section.now address) }
{
    answers::match_answer(flat_find::find(section, address))
}

// The question for a constant: 36 to 40, 11, or its value.
#[unsafe(no_mangle)]
pub extern "C" fn treskibben_flat_constant(section: &[u8], constant: u64) -> answers::Answer
    ensures { result ≡ constant_of (constant_answer section.now constant) }
{
    answers::constant_answer(flat_read::constant(section, constant))
}

// The question for a frame: 36 to 40, 10, or the frame.
#[unsafe(no_mangle)]
pub extern "C" fn treskibben_flat_frame(section: &[u8], frame: u64) -> answers::Frame
    ensures { result ≡ frame_of (frame_answer section.now frame) }
{
    answers::frame_answer(flat_read::frame(section, frame))
}

// The question for a frame register: 36 to 40, 11, or the frame register.
#[unsafe(no_mangle)]
pub extern "C" fn treskibben_flat_frame_register(section: &[u8], register: u64) -> answers::Register
    ensures { result ≡ register_of (register_answer section.now register) }
{
    answers::register_answer(flat_read::register(section, register))
}

// The question for a record: 36 to 40, 10, or the record.
#[unsafe(no_mangle)]
pub extern "C" fn treskibben_flat_record(section: &[u8], record: u64) -> answers::Record
    ensures { result ≡ record_of (record_answer section.now «record») }
{
    answers::record_answer(flat_read::record(section, record))
}

// The question for a location: 36 to 40, 11, or the location.
#[unsafe(no_mangle)]
pub extern "C" fn treskibben_flat_location(section: &[u8], location: u64) -> answers::Location
    ensures { result ≡ location_of (location_answer section.now location) }
{
    answers::location_answer(flat_read::location(section, location))
}

// The question for a live-out: 36 to 40, 11, or the live-out.
#[unsafe(no_mangle)]
pub extern "C" fn treskibben_flat_live_out(section: &[u8], live_out: u64) -> answers::LiveOut
    ensures { result ≡ live_out_of (live_out_answer section.now live_out) }
{
    answers::live_out_answer(flat_read::live_out(section, live_out))
}
