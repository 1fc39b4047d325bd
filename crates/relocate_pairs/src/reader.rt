// One location of a record, as the questions on a section answer it, for a record whose place is known.
// No entry point: it requires a record that stands there.
ghost use Rattle.std.specs.Prelude.{◌≡◌, ◌<◌, drop};
ghost use Rattle.stackmap.specs.Section.{num_locations};
ghost use Rattle.questions.specs.Questions.{this_location};
ghost use Rattle.relocate.specs.Statepoint.{location_at};
ghost use Rattle.relocate.specs.Code.{record_of, pool_of, RecordInside};

use questions::LocationAnswer;
use questions_read::read;

// The location `number` of the record at `at`.
pub fn location(s: &[u8], at: usize, number: usize) -> LocationAnswer
    requires { RecordInside s.now at × (number < num_locations (drop at s.now)) }
    ensures { result ≡ this_location (pool_of s.now) (location_at (record_of s.now at) number) }
{
    read::location_in(s, at, number as u64)
}
