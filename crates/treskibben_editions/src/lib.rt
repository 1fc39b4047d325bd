// What crosses the C boundary of the settings by edition: the answers of the store, field by field, and the place, which is always 0. The
// store and the settings cross as `editions` has them.
#![tactic(auto)]

ghost use Rattle.std.specs.Prelude.{◌≡◌};
ghost use Rattle.editions.specs.Store.{make_in, retire_in, read_in};
ghost use Rattle.editions.specs.Store as answers;
ghost use Rattle.treskibben_editions.specs.Answer.{make_answer, retire_answer, read_answer};

// A refusal's number and place, or 0 and 0 and the new edition's number; and the store that is left.
// Kept: number and place in each answer, and the store in and out by value, are the C interface.
#[repr(C)]
#[derive(Clone, Copy)]
pub struct MakeAnswer {
    pub number: u64,
    pub place: u64,
    pub edition: u64,
    pub store: editions::Store,
}

fn make_answer(m: editions::Made) -> MakeAnswer
    ensures { result ≡ make_answer m }
{
    MakeAnswer {
        number: m.number,
        place: 0,
        edition: m.edition,
        store: m.store,
    }
}

// A new edition: 51, 32, 30, or its number.
pub fn make(store: editions::Store, settings: editions::Settings) -> MakeAnswer
    ensures { result ≡ make_answer (answers.made_answer (make_in store settings)) }
{
    make_answer(editions_store::make(store, settings))
}

// A refusal's number and place, or 0 and 0; and the store that is left.
#[repr(C)]
#[derive(Clone, Copy)]
pub struct RetireAnswer {
    pub number: u64,
    pub place: u64,
    pub store: editions::Store,
}

fn retire_answer(t: editions::Retired) -> RetireAnswer
    ensures { result ≡ retire_answer t }
{
    RetireAnswer {
        number: t.number,
        place: 0,
        store: t.store,
    }
}

// Retires an edition: 31.
pub fn retire(store: editions::Store, edition: u64) -> RetireAnswer
    ensures { result ≡ retire_answer (answers.retired_answer (retire_in store edition)) }
{
    retire_answer(editions_store::retire(store, edition))
}

// A refusal's number and place, or 0 and 0 and the edition's settings.
#[repr(C)]
#[derive(Clone, Copy)]
pub struct ReadAnswer {
    pub number: u64,
    pub place: u64,
    pub settings: editions::Settings,
}

fn read_answer(d: editions::Read) -> ReadAnswer
    ensures { result ≡ read_answer d }
{
    ReadAnswer {
        number: d.number,
        place: 0,
        settings: d.settings,
    }
}

// The settings of an edition: 31.
pub fn read(store: editions::Store, edition: u64) -> ReadAnswer
    ensures { result ≡ read_answer (answers.read_answer (read_in store edition)) }
{
    read_answer(editions_store::read(store, edition))
}
