// The questions on a section, with their answers as they cross the C boundary.
#![tactic(auto)]

ghost use Rattle.std.specs.Prelude.{◌≡◌};
ghost use Rattle.questions.specs.Questions.{by_address, by_function, record_place, location_answer, live_out_answer};
ghost use Rattle.treskibben_answers.specs.Answer.{find_answer_of, record_place_of, location_of, live_out_of};

use treskibben_answers as answers;

// The question by address: the section's refusal, 27 on version 1, 10 exactly if no record has the address, or the first that has.
pub fn find(section: &[u8], address: u64) -> answers::FindAnswer
    ensures { result ≡ find_answer_of (by_address section.now address) }
{
    answers::search_answer(questions_find::find::find(section, address))
}

// The question by function number and offset, of version 1: the section's refusal, 27 on version 3, 10 exactly if there is no such
// function or no record at the offset, or the first that is there.
pub fn find_in_function(section: &[u8], function: u64, offset: u64) -> answers::FindAnswer
    ensures { result ≡ find_answer_of (by_function section.now function offset) }
{
    answers::search_answer(questions_find::find::find_in_function(section, function, offset))
}

// The question by record number: the section's refusal, 10 if there is no such record, or where it stands.
pub fn place(section: &[u8], record: u64) -> answers::RecordPlace
    ensures { result ≡ record_place_of (record_place section.now «record») }
{
    answers::record_answer(questions_locate::locate(section, record))
}

// The question by record and location number: the section's refusal, 10, 11, or the location.
pub fn location(section: &[u8], record: u64, location: u64) -> answers::Location
    ensures { result ≡ location_of (location_answer section.now «record» location) }
{
    answers::location_answer(questions_items::location(section, record, location))
}

// The question by record and live-out number: the section's refusal, 10, 11, or the live-out.
pub fn live_out(section: &[u8], record: u64, live_out: u64) -> answers::LiveOut
    ensures { result ≡ live_out_of (live_out_answer section.now «record» live_out) }
{
    answers::live_out_answer(questions_items::live_out(section, record, live_out))
}
