// The cover as the head of a sheet: its form, then its range.
ghost use Rattle.sheets.specs.Readers.{HeadRead};

use crate::cover::{Cover, read_cover};
use crate::line::refusal_of;
use crate::scan::until;
use plates::Refusal;

// The first line, which is to be a cover with n from 1 to 64, and where the next begins.
pub fn read_head(input: &[u8]) -> Result<(Cover, usize), Refusal>
    ensures { HeadRead input.now result }
{
    let end = until(input, 0, b'\n');
    if end == input.len() {
        return Err(Refusal::SheetLine(1));
    }
    let line = read_cover(&input[..end]);
    let cover = match line {
        Ok(cover) => cover,
        Err(fault) => return Err(refusal_of(1, fault)),
    };
    let n = cover.n;
    if n == 0 || 64 < n {
        return Err(Refusal::Length);
    }
    Ok((cover, end + 1))
}
