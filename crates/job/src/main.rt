// The job program: a job file on standard input, its lines on standard output (RULES 7).
// What is printed is decided by `printed_job::run`; where a read fails, nothing is.
#![tactic(auto)]

ghost use Rattle.std.specs.Prelude.{IfOk, ◌≤◌, length};

use std::io;
use std::io::{Print, Read, Stdin};

// One byte more than a file may have, so that a longer one shows.
const ROOM: usize = 4 * packing::JOB_WORDS + 1;

// Reads until the lent bytes are full, the input ends or a read fails. Gives how many bytes were read.
// A `while`: how far it goes on, each read says.
fn read_all(stdin: &mut Stdin, bytes: &mut [u8]) -> io::Result<usize>
    ensures { IfOk result (λ size. size ≤ length bytes.new) }
{
    let mut size = 0;
    while size < bytes.len() {
        let more = stdin.read(&mut bytes[size..])?;
        if more == 0 {
            break;
        }
        size += more;
    }
    Ok(size)
}

// What cannot be written is lost: nobody is left to be told.
fn print(rt: &HostRuntime, input: &[u8]) {
    let printed = printed_job::run(input);
    let _ = rt.write_all(&printed.bytes[..printed.size]);
}

fn main(rt: HostRuntime) {
    let mut bytes = [0u8; ROOM];
    if let Ok(size) = read_all(&mut rt.stdin(), &mut bytes) {
        print(&rt, &bytes[..size]);
    }
}
