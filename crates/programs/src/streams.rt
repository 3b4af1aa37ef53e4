// Input read to its end, with a read that failed told apart from the end.
ghost use Rattle.std.specs.Prelude.{IfErr, IfOk};
ghost use Rattle.std.specs.Io.{ReadsAtMost};
ghost use Rattle.programs.specs.Input.{IsPrefixLen, Stopped};

use std::io;
use std::io::{Error, ErrorKind, Read};

// What reading gave: how many bytes, and whether it stopped at the end of the input; else the room is full.
#[derive(Clone, Copy)]
pub struct Got {
    pub size: usize,
    pub ended: bool,
}

// A read that failed: how many bytes had come before it, and why it failed.
#[derive(Clone, Copy)]
pub struct Failed {
    pub size: usize,
    pub reason: Error,
}

// One read, which goes on where a signal interrupts it.
fn read_on<R: Read>(from: &mut R, room: &mut [u8]) -> io::Result<usize>
    ensures { ReadsAtMost result room.new }
{
    for _ in 0..u64::MAX {
        match from.read(&mut *room) {
            Ok(more) => return Ok(more),
            Err(reason) => {
                if reason.kind() != ErrorKind::Interrupted {
                    return Err(reason);
                }
            }
        }
    }
    Err(Error::from(ErrorKind::Interrupted))
}

// Reads until the room is full, the input ends or a read fails. A read that gives nothing met the end. (A `while`: it goes on by what a read gave.)
pub fn read_all<R: Read>(from: &mut R, room: &mut [u8]) -> Result<Got, Failed>
    ensures prefix_len { IfOk result (λ got. IsPrefixLen got.size room.new) }
    ensures stopped { IfOk result (λ got. Stopped got room.new) }
    ensures failed { IfErr result (λ failed. IsPrefixLen failed.size room.new) }
{
    let mut done = 0;
    while done < room.len() {
        match read_on(&mut *from, &mut room[done..]) {
            Ok(0) => return Ok(Got {
                size: done,
                ended: true,
            }),
            Ok(more) => done += more,
            Err(reason) => return Err(Failed { size: done, reason }),
        }
    }
    Ok(Got {
        size: done,
        ended: false,
    })
}
