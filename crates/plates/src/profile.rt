// The profile of plate rows: the number of live rows at each depth, in one pass.
ghost use Rattle.std.specs.Prelude.{◌≡◌, ◌+◌, ◌-◌, ◌≤◌, replicate};
ghost use Rattle.words.specs.Ends.{firsts, lasts};
ghost use Rattle.words.specs.Word.{bit};
ghost use Rattle.plates.specs.Profiling.{Balanced, Marks, Tallied};
ghost use Rattle.plates.specs.Reducing.{PlateRows};
ghost use Rattle.plates.specs.Working.{FirstWhere, OverTwelve};

// A word with a one at each head.
pub fn heads(table: &[u64; 64], k: usize) -> u64
    requires { PlateRows table.now 64 k }
    ensures { Marks (firsts table.now) k result }
{
    let mut marks: u64 = 0;
    for j in 0..k {
        marks ^= 1 << words::first_one(table[j]);
    }
    marks
}

// A word with a one at the last one of each row. (Beside `heads`: one function of both would ask for the ones as a ghost value, in more lines than these.)
pub fn ends(table: &[u64; 64], k: usize) -> u64
    requires { PlateRows table.now 64 k }
    ensures { Marks (lasts table.now) k result }
{
    let mut marks: u64 = 0;
    for j in 0..k {
        marks ^= 1 << words::last_one(table[j]);
    }
    marks
}

// The rows live at depth t + 1: one more than at t where one begins, and one less where one ends.
fn next_live(live: u64, heads: u64, ends: u64, t: usize) -> u64
    requires live_bound { live ≤ 64 }
    requires t_bound { bit ends t ≤ live + bit heads t }
    ensures { result ≡ live + bit heads t - bit ends t }
{
    live + words::bit_at(heads, t) - words::bit_at(ends, t)
}

// The profile from where the rows begin and end, depth by depth, in a list of zeros.
pub fn tally(profile: &mut [u8; 65], n: usize, heads: u64, ends: u64)
    requires balanced { Balanced heads ends n }
    requires profile_value { profile.old ≡ replicate 65 0 }
    ensures { Tallied heads ends n profile.new }
{
    let mut live: u64 = 0;
    for t in 0..n {
        live = next_live(live, heads, ends, t);
        profile[t + 1] = live as u8;
    }
}

// The first depth whose entry exceeds 12.
pub fn first_wide(profile: &[u8; 65], n: usize) -> Option<usize>
    requires { n ≤ 64 }
    ensures { FirstWhere profile.now OverTwelve 0 (n + 1) result }
{
    for t in 0..n + 1 {
        if 12 < profile[t] {
            return Some(t);
        }
    }
    None
}
