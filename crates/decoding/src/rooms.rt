// The working rooms: how much of them a decode needs. What is left of the mask goes with the sizes.
ghost use Rattle.std.specs.Prelude.{length, take, ◌≡◌, ◌≤◌, ◌<◌};
ghost use Rattle.decoding.specs.Cosets.{taken_off};
ghost use Rattle.decoding.specs.Needs.{SizesOf, widest_entry};
ghost use Rattle.plates.specs.Prepare.{IsPrepared, lent};

use crate::cosets::rest_of;
use crate::sweep::Sizes;
use plates::Parts;

// The largest of the first n + 1 profile entries.
fn widest(profile: &[u64], n: usize) -> usize
    requires { n < length profile.now }
    ensures { result ≡ widest_entry profile.now n }
{
    let mut most = profile[0] as usize;
    for t in 0..n {
        most = usize::max(profile[t + 1] as usize, most);
    }
    most
}

// What is left of a mask once the first k rows are taken off it; of no mask nothing is.
fn rest_of_mask(rows: &[u64], k: usize, mask: u64) -> u64
    requires { k ≤ length rows.now }
    ensures { result ≡ taken_off (take k rows.now) mask }
{
    if mask == 0 {
        return 0;
    }
    rest_of(&rows[..k], mask)
}

// How large a decode of a prepared plate is, and what is left of its mask.
pub fn sizes_of<'a>(plate: Parts<'a>) -> Sizes
    requires { IsPrepared (lent plate) }
    ensures { SizesOf (lent plate.entry) result }
{
    let rest = rest_of_mask(plate.rows, plate.k, plate.mask);
    let half = 1 << widest(plate.profile, plate.n);
    Sizes {
        n: plate.n,
        k: plate.k,
        half,
        words: usize::max(1, half / 64),
        rest,
    }
}
