// The conversion of a section to a listing: document 01, "The listing".
#![tactic(auto)]

ghost use Rattle.std.specs.Prelude.{◌≡◌, ◌≤◌, length};
ghost use Rattle.stackmap.specs.Layout.{header_size};
ghost use Rattle.stackmap.specs.Section.{read_section};
ghost use Rattle.stackmap.specs.Check.{Accepted};
ghost use Rattle.listing.specs.Listing.{listing_fields, encode_listing, to_listing};
ghost use Rattle.listing.specs.Answers.{Answers};
ghost use Rattle.lister_items.specs.Put.{Put};
ghost use Rattle.lister.specs.Shape.{SectionLayout};

use lister_items::{items, runs};
use listing::{Conversion, numbers};
use refusals::Refusal;
use stackmap::layout;

// How a section is laid out: whether it is of version 1, how many functions, constants and records, where the constants begin
// (the pool), and where the first record stands.
#[derive(Clone, Copy)]
struct Tables {
    old: bool,
    functions: usize,
    constants: usize,
    records: usize,
    pool: usize,
    first: usize,
}

// The layout, as the header gives it.
fn section_tables(s: &[u8]) -> Tables
    requires { header_size ≤ length s.now }
    ensures { SectionLayout s.now result.old result.functions result.constants result.records result.pool result.first }
{
    let old = stackmap_tables::tables::is_old(s);
    let functions = wire::u32_at(s, layout::NUM_FUNCTIONS_AT) as usize;
    let constants = wire::u32_at(s, layout::NUM_CONSTANTS_AT) as usize;
    let records = wire::u32_at(s, layout::NUM_RECORDS_AT) as usize;
    let pool = layout::HEADER_SIZE + layout::function_size(old) * functions;
    Tables {
        old,
        functions,
        constants,
        records,
        pool,
        first: pool + layout::CONSTANT_SIZE * constants,
    }
}

// How long the listing of a section is.
fn listing_length(s: &[u8]) -> usize
    requires { Accepted s.now }
    ensures { result ≡ length (encode_listing (read_section s.now)) }
{
    let tables = section_tables(s);
    let records = lister_records::records_length(s, tables.old, tables.first, tables.records);
    listing::version_length(tables.old)
        + numbers::FUNCTION_ITEM_SIZE * tables.functions
        + numbers::CONSTANT_ITEM_SIZE * tables.constants
        + records
        + numbers::END_ITEM_SIZE
}

// The listing of a section: in version 1 its version, then functions, then constants, then each record, then one end. Answers its length.
fn put_listing(s: &[u8], out: &mut [u8]) -> usize
    requires { Accepted s.now × (length (encode_listing (read_section s.now)) ≤ length out.old) }
    ensures { Put out.old out.new 0 result (listing_fields (read_section s.now)) }
{
    let tables = section_tables(s);
    let mut next = items::put_version(tables.old, out);
    next = runs::put_functions(
        s,
        tables.old,
        layout::HEADER_SIZE,
        tables.functions,
        out,
        next,
    );
    next = runs::put_constants(s, tables.pool, tables.constants, out, next);
    next = lister_records::put_records(s, tables.old, tables.first, tables.records, out, next);
    out[next] = numbers::END_KIND;
    next + numbers::END_ITEM_SIZE
}

// A section's refusal; or 24 if the output is shorter than the listing; or the listing in the output, and its length.
pub fn to_listing(section: &[u8], out: &mut [u8]) -> Conversion
    ensures { Answers result out.new (to_listing section.now out.old) }
{
    match stackmap_check::check(section) {
        Err(Refusal(cause, place)) => Conversion {
            number: cause.number(),
            place,
            written: 0,
        },
        Ok(_) => {
            if out.len() < listing_length(section) {
                return Conversion {
                    number: 24,
                    place: 0,
                    written: 0,
                };
            }
            let written = put_listing(section, out);
            Conversion {
                number: 0,
                place: 0,
                written,
            }
        }
    }
}
