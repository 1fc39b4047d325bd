// The header and the whole section, written to the output, in the layout of version 1 where `old` is true. Each function writes its bytes
// and nothing else, and requires that they are inside: `to_section` has shown it before the first write. The listing is what follows
// the version's item.
ghost use Rattle.std.specs.Prelude.{◌≡◌, ◌+◌, ◌≤◌, length};
ghost use Rattle.std.proofs.lemmas.List.Edits.{sets};
ghost use Rattle.stackmap.specs.Layout.{version_number, header_size};
ghost use Rattle.stackmap.specs.Fields.{bytes_of};
ghost use Rattle.stackmap.specs.Section.{encode_section};
ghost use Rattle.listing.specs.Layout.{listing_most};
ghost use Rattle.listing.specs.Listing.{read_items};
ghost use Rattle.parser_items.specs.Survey.{records_after, Planned};
ghost use Rattle.parser.specs.Outcome.{section_end};
ghost use Rattle.parser_items.specs.Draft.{Ready};
ghost use Rattle.builder.specs.Put.{header_fields};

use builder_items::runs;
use listing::numbers;
use parser_items::Plan;
use stackmap::layout;

// The version in one byte and three zero bytes, as one number.
fn version_word(old: bool) -> u32
    ensures { result ≡ version_number old }
{
    u32::from(if old {
        layout::OLD_VERSION
    } else {
        layout::VERSION
    })
}

// The header: version and three zero bytes, and how many functions, constants and records.
fn put_header(plan: Plan, out: &mut [u8])
    requires { (plan.functions ≤ listing_most) × (plan.constants ≤ listing_most) × (plan.records ≤ listing_most) × (header_size ≤ length out.old) }
    ensures { out.new ≡ sets out.old 0 (bytes_of (header_fields plan.old plan.functions plan.constants plan.records)) }
{
    wire::put_u32(out, 0, version_word(plan.old));
    wire::put_u32(out, layout::NUM_FUNCTIONS_AT, plan.functions as u32);
    wire::put_u32(out, layout::NUM_CONSTANTS_AT, plan.constants as u32);
    wire::put_u32(out, layout::NUM_RECORDS_AT, plan.records as u32);
}

// The whole section.
pub fn section(l: &[u8], plan: Plan, out: &mut [u8])
    requires { Planned l.now plan.old plan.functions plan.constants plan.records plan.bytes × Ready l.now (records_after l.now plan.functions plan.constants) plan.records × (length l.now ≤ listing_most) × (section_end plan.old plan.functions plan.constants plan.bytes ≤ length out.old) }
    ensures { out.new ≡ sets out.old 0 (encode_section (read_items l.now plan.old)) }
{
    let f = plan.functions;
    let c = plan.constants;
    let n = plan.records;
    let first = numbers::FUNCTION_ITEM_SIZE * f;
    let from = first + numbers::CONSTANT_ITEM_SIZE * c;
    let next = layout::HEADER_SIZE + layout::function_size(plan.old) * f;
    let to = next + layout::CONSTANT_SIZE * c;
    put_header(plan, out);
    runs::functions(l, plan.old, 0, f, out, layout::HEADER_SIZE);
    runs::constants(l, first, c, out, next);
    builder_records::records(l, plan.old, from, n, out, to);
}
