// Settings by edition, document 02, request 9: a store is handed in and comes back by value, and every content of it gets an answer.
#![tactic(auto)]

ghost use Rattle.std.specs.Prelude.{◌≡◌, ◌<◌, length, MatchResult, position};
ghost use Rattle.editions.specs.Calls.{number_most, settings_right, refuse};
ghost use Rattle.editions.specs.Store.{nothing, free, holds, without, empty};
ghost use Rattle.editions.specs.Store.{make_in, retire_in, read_in, made_answer, retired_answer, read_answer};
ghost use Rattle.editions_store.specs.Places.{is_free, clear, made_at};

use editions::{Edition, Made, NUMBER_MOST, PLACES, Read, Retired, Settings, Store};

fn nothing() -> Settings
    ensures { result ≡ nothing }
{
    Settings {
        most: 0,
        machine: 0,
        version1: 0,
        version3: 0,
    }
}

fn free() -> Edition
    ensures { result ≡ free }
{
    Edition {
        number: 0,
        settings: nothing(),
    }
}

// A store in which nothing was ever made.
pub fn empty() -> Store
    ensures { result ≡ empty }
{
    Store {
        greatest: 0,
        slots: [free(); PLACES],
    }
}

// Whether make takes these settings; else 51.
#[tactic(auto, unfolding(editions::specs::Calls::settings_right))]
fn settings_right(s: Settings) -> bool
    ensures { result ≡ settings_right s }
{
    s.most >= 1
        && s.most <= 256
        && s.machine <= 1
        && s.version1 <= 1
        && s.version3 <= 1
        && s.version1 + s.version3 >= 1
}

// Whether a place has the edition of that number.
#[tactic(auto, unfolding(editions::specs::Store::holds))]
fn holds(number: u64, place: Edition) -> bool
    ensures { result ≡ holds number place }
{
    place.number == number
        && place.number >= 1
        && place.number <= NUMBER_MOST
        && settings_right(place.settings)
}

// The first free place.
fn free_place(slots: &[Edition; PLACES]) -> Option<usize>
    ensures { result ≡ position is_free slots.now }
{
    slots.iter().position(|place| place.number == 0)
}

// The first place that has the edition of that number.
fn place_of(slots: &[Edition; PLACES], number: u64) -> Option<usize>
    ensures { result ≡ position (holds number) slots.now }
{
    slots.iter().position(|place| holds(number, *place))
}

// A place after the retirement of that number.
fn cleared(number: u64, place: Edition) -> Edition
    ensures { result ≡ clear number place }
{
    if holds(number, place) { free() } else { place }
}

// The places after the retirement of that number.
fn freed(slots: [Edition; PLACES], number: u64) -> [Edition; PLACES]
    ensures { result ≡ without number slots }
{
    let mut after = slots;
    for place in after.iter_mut() {
        *place = cleared(number, *place);
    }
    after
}

// Where a new edition is kept, or the refusal: 51, 32, 30.
fn place_for(store: &Store, settings: Settings) -> Result<usize, u64>
    ensures { MatchResult result (λ i. (i < length store.now.slots) × (store.now.greatest < number_most) × (make_in store.now settings ≡ made_at store.now settings i)) (λ n. make_in store.now settings ≡ refuse n store.now) }
{
    if !settings_right(settings) {
        return Err(51);
    }
    if store.greatest >= NUMBER_MOST {
        return Err(32);
    }
    free_place(&store.slots).ok_or(30)
}

// A new edition: 51, 32, 30.
pub fn make(store: Store, settings: Settings) -> Made
    ensures { result ≡ made_answer (make_in store settings) }
{
    match place_for(&store, settings) {
        Ok(i) => {
            let edition = store.greatest + 1;
            let mut after = store;
            after.greatest = edition;
            after.slots[i] = Edition {
                number: edition,
                settings,
            };
            Made {
                number: 0,
                edition,
                store: after,
            }
        }
        Err(number) => Made {
            number,
            edition: 0,
            store,
        },
    }
}

// Retires the edition of that number: 31. Its place is free then, and its number is never given again.
pub fn retire(store: Store, number: u64) -> Retired
    ensures { result ≡ retired_answer (retire_in store number) }
{
    if place_of(&store.slots, number).is_none() {
        return Retired { number: 31, store };
    }
    Retired {
        number: 0,
        store: Store {
            greatest: store.greatest,
            slots: freed(store.slots, number),
        },
    }
}

// The settings of the edition of that number: 31.
pub fn read(store: Store, number: u64) -> Read
    ensures { result ≡ read_answer (read_in store number) }
{
    match place_of(&store.slots, number) {
        Some(i) => Read {
            number: 0,
            settings: store.slots[i].settings,
        },
        None => Read {
            number: 31,
            settings: nothing(),
        },
    }
}
