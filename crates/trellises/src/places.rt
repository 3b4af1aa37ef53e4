// Numbers of states and of branches by their digits: the weight of a place, and where a branch leads.
ghost use Rattle.std.specs.Prelude.{◌≡◌, ◌<◌, ◌≤◌, ◌^◌};
ghost use Rattle.trellises.specs.Numbers.{leads_to, without};

use crate::Section;

// The weight of a place, and 0 from 64 on, where no number has a digit.
pub fn weight_of(place: usize) -> usize
    ensures below { place < 64 → result ≡ 2 ^ place }
    ensures beyond { 64 ≤ place → result ≡ 0 }
{
    if 64 <= place {
        return 0;
    }
    1usize << place
}

// A number with the digit at a place taken out.
fn without_digit(number: usize, place: usize) -> usize
    ensures { result ≡ without place number }
{
    if 64 <= place {
        return number;
    }
    let weight = weight_of(place);
    number / weight / 2 * weight + number % weight
}

// The state that a branch leads to: its number, without the digit of the row that ends.
pub fn next_state(section: Section, number: usize) -> usize
    ensures { result ≡ leads_to section number }
{
    if section.ends {
        return without_digit(number, section.ending);
    }
    number
}
