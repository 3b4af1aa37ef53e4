// The lines that are on full paths: marked from the first to the last, and counted.
ghost use Rattle.std.specs.Prelude.{◌*◌, ◌+◌, ◌<◌, ◌≤◌, ◌^◌, length, ◌≡◌, ℕ};
ghost use Rattle.words.specs.Choice.{count};
ghost use Rattle.judging.specs.Marks.{AllMarked, Passing, digit_of, first_test, mark_for, reach_test, same_test, used_test};

// How many of the first places pass a test.
fn passing<F: Fn(usize) -> bool>(places: usize, test: F) -> usize
    requires { (j : ℕ) → j < places → F.pre test j }
    ensures { Passing places (F.post test) result }
{
    let mut c: usize = 0;
    for j in (0..places).rev() {
        if test(j) {
            c += 1;
        }
    }
    c
}

// Whether a line of a section is marked and leads to a state.
fn reaches(room: &[u64], k: usize, section: u64, state: u64) -> bool
    requires { 4 * k + 4 ≤ length room.now }
    ensures { result ≡ reach_test room.now section state k }
{
    room[4 * k] / 2048 == section && room[4 * k + 1] == state && room[4 * k + 3] == 1
}

// How many marked lines of a section lead to a state.
fn count_reaching(room: &[u64], lines: usize, section: u64, state: u64) -> usize
    requires { (length room.now ≡ 4 * lines) × (lines ≤ 1024) }
    ensures { result ≡ count lines (reach_test room.now section state) }
{
    passing(lines, |j| reaches(room, j, section, state))
}

// Whether a state of a depth is reached.
fn is_reached(room: &[u64], lines: usize, t: u64, state: u64) -> bool
    requires { (length room.now ≡ 4 * lines) × (lines ≤ 1024) }
    ensures { digit_of result ≡ mark_for room.now lines t state }
{
    if t == 0 {
        return state == 0;
    }
    0 < count_reaching(room, lines, t - 1, state)
}

// Each line marked whose state is reached.
pub fn mark_all(room: &mut [u64], lines: usize)
    requires { (length room.old ≡ 4 * lines) × (lines ≤ 1024) }
    ensures all_marked { AllMarked lines room.old room.new lines }
    ensures room_len_unchanged { length room.new ≡ length room.old }
{
    for i in 0..lines {
        let at = 4 * i;
        let start = room[at];
        let reached = is_reached(&*room, lines, start / 2048, start / 2 % 1024);
        room[at + 3] = u64::from(reached);
    }
}

// Whether a line of a section is on a full path.
fn is_used(room: &[u64], t: u64, i: usize) -> bool
    requires { 4 * i + 4 ≤ length room.now }
    ensures { result ≡ used_test room.now t i }
{
    room[4 * i] / 2048 == t && room[4 * i + 3] == 1 && 0 < room[4 * i + 2]
}

// Whether it leaves a state besides.
fn is_same(room: &[u64], t: u64, state: u64, i: usize) -> bool
    requires { 4 * i + 4 ≤ length room.now }
    ensures { result ≡ same_test room.now t state i }
{
    is_used(room, t, i) && room[4 * i] / 2 % 1024 == state
}

// How many of the first lines do.
fn count_same(room: &[u64], first: usize, t: u64, state: u64) -> usize
    requires { (4 * first ≤ length room.now) × (first ≤ 1024) }
    ensures { result ≡ count first (same_test room.now t state) }
{
    passing(first, |j| is_same(room, t, state, j))
}

// Whether a line on a full path is the first that leaves its state.
fn is_first(room: &[u64], t: u64, i: usize) -> bool
    requires { (4 * i + 4 ≤ length room.now) × (i ≤ 1024) }
    ensures { result ≡ first_test room.now t i }
{
    is_used(room, t, i) && count_same(room, i, t, room[4 * i] / 2 % 1024) == 0
}

// How many branches of a section are on full paths.
pub fn count_used(room: &[u64], lines: usize, t: u64) -> usize
    requires { (length room.now ≡ 4 * lines) × (lines ≤ 1024) }
    ensures { result ≡ count lines (used_test room.now t) }
{
    passing(lines, |j| is_used(room, t, j))
}

// How many states of a depth before the end are.
pub fn count_first(room: &[u64], lines: usize, t: u64) -> usize
    requires { (length room.now ≡ 4 * lines) × (lines ≤ 1024) }
    ensures { result ≡ count lines (first_test room.now t) }
{
    passing(lines, |j| is_first(room, t, j))
}
