// Parity check matrices as alist text over the C interface: written, and read.
ghost use Rattle.exports.specs.Matrices.{CallsReadAlist, CallsWriteAlist, alist_cells, matrix_cells};

use crate::tables::put_table;
use crate::{MISSHAPEN, cells};
use alists::Matrix;

// The alist text of a parity check matrix of n columns.
#[unsafe(no_mangle)]
pub extern "C" fn yendrufal_write_alist(
    n: u64,
    rows: &[u64],
    room: &mut [u8],
    written: &mut [u64],
    at: &mut [u64],
) -> u64
    ensures { CallsWriteAlist n rows.now (alist_cells room.old written.old at.old) result (alist_cells room.new written.new at.new) }
{
    if written.len() < 1 {
        return MISSHAPEN;
    }
    if at.len() < 1 {
        return MISSHAPEN;
    }
    match alists::write(n as usize, rows, room) {
        Ok(bytes) => {
            written[0] = bytes as u64;
            at[0] = 0;
            0
        }
        Err(reason) => cells::refused_at(reason, at),
    }
}

// The parity check matrix of an alist text, read into a table of its own, so that a refused text changes no row.
#[unsafe(no_mangle)]
pub extern "C" fn yendrufal_read_alist(
    text: &[u8],
    sizes: &mut [u64],
    rows: &mut [u64],
    at: &mut [u64],
) -> u64
    ensures { CallsReadAlist text.now (matrix_cells sizes.old rows.old at.old) result (matrix_cells sizes.new rows.new at.new) }
{
    if sizes.len() < 2 {
        return MISSHAPEN;
    }
    if rows.len() < 64 {
        return MISSHAPEN;
    }
    if at.len() < 1 {
        return MISSHAPEN;
    }
    let mut table = [0u64; 64];
    match alists::read(text, &mut table) {
        Ok(Matrix { n, count }) => {
            put_table(rows, &table);
            sizes[0] = n as u64;
            sizes[1] = count as u64;
            at[0] = 0;
            0
        }
        Err(refusal) => cells::refused_at(refusal, at),
    }
}
