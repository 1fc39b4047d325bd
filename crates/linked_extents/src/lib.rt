// The extents of a thread's frames over a linked section, each by its own map, and whether two of them share a byte (26).
// No entry point: it requires that the maps are right, the frames' records are found and each frame's extent is known.
#![tactic(auto)]

ghost use Rattle.std.specs.Prelude.{◌≡◌, cond, [], map, ◌*◌, ◌≤◌, ◌<◌, ltb, length};
ghost use Rattle.stackmap.specs.Check.{Accepted};
ghost use Rattle.questions.specs.Questions.{first_of};
ghost use Rattle.moves.specs.declared.Move as MoveType;
ghost use Rattle.moves.specs.Settle.{refused_move};
ghost use Rattle.relocate.specs.Limits.{register_count};
ghost use Rattle.relocate.specs.Stopped.{stopped};
ghost use Rattle.relocate.specs.Plan.{records_of};
ghost use Rattle.relocate.specs.Relocation.{extent_of};
ghost use Rattle.thread.specs.Thread.{stopped_at, frames_from, apart, thread_of};
ghost use Rattle.thread.specs.Code.{Sited};
ghost use Rattle.linked_moves.specs.Thread.{extent_over};
ghost use Rattle.linked_moves.specs.Code.{maps_in, LookedIn, EachSitedIn};

use linked_moves::SITES_LENGTH;
use questions::Found;
use relocate::{Frame, Machine, REGISTERS};
use stackmap_tables::tables;
use thread::FRAMES_MOST;
use thread_extents::Stretch;
use thread_search::list;
use thread_search::search::HITS_LENGTH;

// The extent of a frame by the bytes of its map: it begins at the stack pointer in the frame's own registers.
fn extent_in(map: &[u8], found: Found, frame: Frame, registers: &[u64]) -> Stretch
    requires { Accepted map.now × (found ≡ first_of (records_of map.now frame)) × Sited map.now (stopped frame registers.now) }
    ensures { (result.start ≡ (extent_of map.now (stopped frame registers.now)).start) × (result.end ≡ (extent_of map.now (stopped frame registers.now)).end) }
{
    let size = tables::stack_size(map, found.function);
    let at = relocate_frame::cursor(frame, registers);
    Stretch {
        start: at.sp,
        end: at.sp + size,
    }
}

// The extent of the frame at the position k.
fn extent(
    machine: Machine,
    s: &[u8],
    frames: &[u64],
    registers: &[u64],
    count: usize,
    keys: &[u64; FRAMES_MOST],
    hits: &[usize; HITS_LENGTH],
    sites: &[usize; SITES_LENGTH],
    k: usize,
) -> Stretch
    requires { LookedIn s.now (maps_in s.now) frames.now count keys.now hits.now sites.now × (length registers.now ≡ register_count * count)
        × EachSitedIn (maps_in s.now) (thread_of machine frames.now registers.now) count × (k < count) }
    ensures { (result.start ≡ (extent_over (maps_in s.now) (stopped_at (thread_of machine frames.now registers.now) k)).start)
        × (result.end ≡ (extent_over (maps_in s.now) (stopped_at (thread_of machine frames.now registers.now) k)).end) }
{
    let site = linked_frames::site_of(s, frames, count, keys, hits, sites, k);
    let frame = list::frame_at(machine, frames, k);
    let p = REGISTERS * k;
    extent_in(
        site.bytes(s),
        site.found,
        frame,
        &registers[p..p + REGISTERS],
    )
}

// The position of the first frame whose extent shares a byte with an earlier one's; `count` if there is none.
pub fn first_shared(
    machine: Machine,
    s: &[u8],
    frames: &[u64],
    registers: &[u64],
    count: usize,
    keys: &[u64; FRAMES_MOST],
    hits: &[usize; HITS_LENGTH],
    sites: &[usize; SITES_LENGTH],
) -> usize
    requires { LookedIn s.now (maps_in s.now) frames.now count keys.now hits.now sites.now × (length registers.now ≡ register_count * count)
        × EachSitedIn (maps_in s.now) (thread_of machine frames.now registers.now) count }
    ensures { (result ≤ count) × ((m : MoveType.Move) → apart 0 [] (map (extent_over (maps_in s.now)) (frames_from (thread_of machine frames.now registers.now) count 0)) m
        ≡ cond (ltb result count) (refused_move 26 result) m) }
{
    thread_extents::first_shared_by(count, |k| {
        extent(machine, s, frames, registers, count, keys, hits, sites, k)
    })
}
