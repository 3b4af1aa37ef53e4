// The samples of a block or heard line in their places by position.
ghost use Rattle.std.specs.Prelude.{◌<◌, ◌≤◌, length, ◌≡◌, Ok};
ghost use Rattle.sheets.specs.Blocks.{block_line, placed, listed_in};
ghost use Rattle.sheets.specs.Readers.{listed_at};
ghost use Rattle.sheets.specs.Room.{laid};
ghost use Rattle.sheets.specs.Text.{fields};
ghost use Rattle.sheets.specs.Turning.{in_order};

use crate::Order;
use crate::block::read_block_line;

// Where the sample of a position is listed among n.
pub fn listed_at(order: Order, n: usize, position: usize) -> usize
    requires { position < n }
    ensures value { result ≡ listed_at order n position }
    ensures upper_bound { result < n }
{
    match order {
        Order::First => position,
        Order::Last => n - 1 - position,
    }
}

// Listed samples into the places of their positions; beyond the room they are dropped.
fn place_listed(listed: &[i16], order: Order, room: &mut [i16])
    ensures { room.new ≡ laid (in_order order listed.now) room.old }
{
    let n = listed.len();
    for k in 0..n {
        let from = listed_at(order, n, k);
        let value = listed[from];
        words::put(room, k, value);
    }
}

// The samples of a block or heard line that has `count` of them, which are left out where they are more than 64.
pub fn place_samples(heard: bool, line: &[u8], count: usize, order: Order, room: &mut [i16])
    requires { block_line heard (fields line.now) ≡ Ok count }
    ensures { room.new ≡ placed order (listed_in heard (fields line.now)) room.old }
{
    if 64 < count {
        return;
    }
    let mut listed = [0i16; 64];
    let _ = read_block_line(heard, line, &mut listed);
    let values = &listed[..];
    place_listed(&values[..count], order, room);
}
