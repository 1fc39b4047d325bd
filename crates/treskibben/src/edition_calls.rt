// The exported functions of the settings by edition, for C and Rust, and nothing else. A store goes in and comes back by value, and every
// content of one gets an answer; the place of every refusal is 0.
ghost use Rattle.std.specs.Prelude.{◌≡◌};
ghost use Rattle.editions.specs.Store.{empty, make_in, retire_in, read_in, made_answer, retired_answer, read_answer};
ghost use Rattle.treskibben_editions.specs.Answer as Answer;

use editions::{Settings, Store};

// A store in which nothing was ever made: all of its numbers are 0.
#[unsafe(no_mangle)]
pub extern "C" fn treskibben_editions_empty() -> Store
    ensures { result ≡ empty }
{
    editions_store::empty()
}

// A new edition of these settings: 51, 32, 30, or its number, one more than the greatest ever used. A refusal leaves the store as it was.
#[unsafe(no_mangle)]
pub extern "C" fn treskibben_edition_make(
    store: Store,
    settings: Settings,
) -> treskibben_editions::MakeAnswer
    ensures { result ≡ Answer.make_answer (made_answer (make_in store settings)) }
{
    treskibben_editions::make(store, settings)
}

// Retires an edition: 31 for one that is unknown or retired. A refusal leaves the store as it was.
#[unsafe(no_mangle)]
pub extern "C" fn treskibben_edition_retire(
    store: Store,
    edition: u64,
) -> treskibben_editions::RetireAnswer
    ensures { result ≡ Answer.retire_answer (retired_answer (retire_in store edition)) }
{
    treskibben_editions::retire(store, edition)
}

// The settings of an edition: 31 for one that is unknown or retired.
#[unsafe(no_mangle)]
pub extern "C" fn treskibben_edition_read(
    store: Store,
    edition: u64,
) -> treskibben_editions::ReadAnswer
    ensures { result ≡ Answer.read_answer (read_answer (read_in store edition)) }
{
    treskibben_editions::read(store, edition)
}
