// Opening and reading a file.
ghost use Rattle.std.specs.Prelude.{◌≤◌, length, IfSome};

use std::fs::File;
use std::io::Read;
use std::rt::Files;

// Reads a file into a buffer that has room for one byte more than the file may have, so that a longer one shows: the bytes that were read, or
// nothing for a file that is not there. A path that is no UTF-8 names no file, since std opens none by such a path.
pub fn read_file<'a>(files: &impl Files, path: &[u8], buffer: &'a mut [u8]) -> Option<&'a [u8]>
    ensures { IfSome result (λ bs. length bs.now ≤ length buffer.old) }
{
    let name = std::str::from_utf8(path).ok()?;
    let mut file = File::open(files, name).ok()?;
    let size = read_full(&mut file, buffer);
    Some(&buffer[..size])
}

// Reads until the bytes are full, the input ends or a read fails, and answers how many were read: a read that fails is the end. No `for`, since
// each turn goes on by what it reads; std's read_to_end needs a heap, and read_exact doesn't count.
fn read_full(input: &mut impl Read, bytes: &mut [u8]) -> usize
    ensures { result ≤ length bytes.old }
{
    let mut done = 0;
    while done < bytes.len() {
        let Ok(n @ 1..) = input.read(&mut bytes[done..]) else {
            break;
        };
        done += n;
    }
    done
}
