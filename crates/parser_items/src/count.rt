// How many items of each kind a listing has.
// No entry point: `parse` calls it at places inside the listing, whose length 1 has tested.
ghost use Rattle.std.specs.Prelude.{◌≤◌, length};
ghost use Rattle.listing.specs.Layout.{listing_most};
ghost use Rattle.parser_items.specs.Count.{Ran, TablesCounted};
ghost use Rattle.parser_items.specs.Survey.{Passed, Measured, Ends};

use crate::shape;
use listing::numbers;

// How many items of one kind, of `size` bytes each, stand one after the other from `from`.
pub fn items(l: &[u8], kind: u8, size: usize, from: usize) -> usize
    requires { (from ≤ length l.now) × (1 ≤ size) }
    ensures { Ran l.now kind size from result }
{
    let mut at = from;
    let mut n = 0;
    while l.len() - at >= size && l[at] == kind {
        at += size;
        n += 1;
    }
    n
}

// How many functions and constants a listing has.
#[derive(Clone, Copy)]
pub struct Tables {
    pub functions: usize,
    pub constants: usize,
}

// The functions and the constants, with which a listing begins.
pub fn listed_tables(l: &[u8]) -> Tables
    ensures { TablesCounted l.now result.functions result.constants }
{
    let functions = items(l, numbers::FUNCTION_KIND, numbers::FUNCTION_ITEM_SIZE, 0);
    let constants = items(
        l,
        numbers::CONSTANT_KIND,
        numbers::CONSTANT_ITEM_SIZE,
        numbers::FUNCTION_ITEM_SIZE * functions,
    );
    Tables {
        functions,
        constants,
    }
}

// What a pass over the records finds.
// Kept: what may not change, the clause of `survey_records` speaks of `crowded`.
#[derive(Clone, Copy)]
pub struct Survey {
    // How many records, and their bytes in a section.
    pub records: usize,
    pub size: usize,
    // Where they stop.
    pub stop: usize,
    // Whether a record with too many locations or live-outs stands there.
    pub crowded: bool,
}

// The records from `from` on, up to the first that has too many locations or live-outs; `old` is true for version 1.
pub fn survey_records(l: &[u8], old: bool, from: usize) -> Survey
    requires { (from ≤ length l.now) × (length l.now ≤ listing_most) }
    ensures { Passed l.now from result.records result.stop × Measured l.now old from result.size result.stop × Ends l.now result.stop result.crowded }
{
    let mut stop = from;
    let mut records = 0;
    let mut size = 0;
    while l.len() - stop >= numbers::RECORD_ITEM_SIZE && l[stop] == numbers::RECORD_KIND {
        let shape = shape::record_shape(l, stop);
        if shape.locations > numbers::ITEMS_MOST || shape.outs > numbers::ITEMS_MOST {
            return Survey {
                records,
                size,
                stop,
                crowded: true,
            };
        }
        records += 1;
        size += shape::record_size(old, shape);
        stop = shape.stop;
    }
    Survey {
        records,
        size,
        stop,
        crowded: false,
    }
}
