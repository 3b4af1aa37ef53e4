// The rooms: how many numbers a half of the working room has, whether a room is too short, putting it to zero, and looking through the
// counts.
ghost use Rattle.std.specs.Prelude.{get_or, length, replicate, ◌≡◌, ◌*◌, ◌+◌, ◌^◌, ◌≤◌, ◌<◌};
ghost use Rattle.decoding.specs.Needs.{ProfileFits, widest_entry};
ghost use Rattle.weights.specs.Rooms.{Copied, LeastAbove, TestsRooms};

use trellises::places::weight_of;

// The largest of the first n + 1 profile entries.
fn widest(profile: &[u64], n: usize) -> usize
    requires { n < length profile.now }
    ensures { result ≡ widest_entry profile.now n }
{
    let mut most = profile[0] as usize;
    for t in 0..n {
        most = most.max(profile[t + 1] as usize);
    }
    most
}

// 65 numbers for each state of the widest depth.
pub fn half_of(n: usize, profile: &[u64]) -> usize
    requires { (n < length profile.now) × ProfileFits profile.now n }
    ensures { result ≡ 2 ^ widest_entry profile.now n * 65 }
{
    weight_of(widest(profile, n)) * 65
}

// Whether the counts are fewer than 65, or the working room has fewer numbers than it needs.
pub fn are_short(counts: usize, working: usize, need: usize) -> bool
    ensures { TestsRooms counts working need result }
{
    counts < 65 || working < need
}

// All of a room put to zero.
pub fn clear(room: &mut [u64])
    ensures { room.new ≡ replicate (length room.old) 0 }
{
    room.fill(0);
}

// The 65 numbers that begin at a place of the working room, into the counts.
pub fn copy_out(working: &[u64], from: usize, counts: &mut [u64])
    requires { (65 ≤ length counts.old) × (from + 65 ≤ length working.now) }
    ensures { Copied working.now from counts.old 65 counts.new }
{
    // one by one: a slice copied at once is memmove, which the controller's library does not have
    for w in 0..65 {
        counts[w] = working[from + w];
    }
}

// The smallest weight above zero whose count is above zero.
pub fn find_least(counts: &[u64]) -> Option<usize>
    requires { 65 ≤ length counts.now }
    ensures { LeastAbove counts.now result }
{
    for w in 1..65 {
        if 0 < counts[w] {
            return Some(w);
        }
    }
    None
}
