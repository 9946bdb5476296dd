// A file read into a lent buffer, as far as the buffer has room.
#![tactic(auto)]

ghost use Rattle.std.specs.Prelude.{◌≡◌, ◌≤◌, ◌<◌, IfOk};
ghost use Rattle.std.specs.Str.{IsUtf8};
ghost use Rattle.file_reading.specs.Reads.{after_read, IsPrefixLen, ReadsFront};

use std::io::Read;
use std::ops::ControlFlow;
use std::rt::Files;
use std::{fs, io};

// What a read that the system answered with `got` makes of `done` bytes in a buffer of `size`: the file ends at so many bytes, or goes on after them.
fn after_read(
    done: usize,
    size: usize,
    got: io::Result<usize>,
) -> io::Result<ControlFlow<usize, usize>>
    requires { done ≤ size }
    ensures { result ≡ after_read done size got }
{
    let more = got?;
    if more == 0 {
        return Ok(ControlFlow::Break(done));
    }
    Ok(ControlFlow::Continue(done + more.min(size - done)))
}

// Reads until the buffer is full or the file ends, and answers how many bytes are read.
fn read_open<F: Read>(file: &mut F, buf: &mut [u8]) -> io::Result<usize>
    ensures { IfOk result (λ n. ReadsFront (F.remaining file.old) (F.remaining file.new) buf.new n) }
{
    let size = buf.len();
    let mut done = 0;
    while done < size {
        match after_read(done, size, file.read(&mut buf[done..]))? {
            ControlFlow::Break(n) => return Ok(n),
            ControlFlow::Continue(n) => done = n,
        }
    }
    Ok(done)
}

// Puts the front of a file into the buffer, and answers how many bytes of it stand there. A file that cannot be opened counts as
// empty, and so does one of which a read fails or whose path is no text in UTF-8. What a file of the system holds is known to no
// contract: that its reads give the file's bytes is assumed of the system.
pub fn read_file<R: Files>(files: &R, path: &[u8], buf: &mut [u8]) -> usize
    ensures front { IsPrefixLen result buf.new }
    ensures text { ¬ (IsUtf8 path.now) → result ≡ 0 }
    ensures read { 0 < result → (opened : R.File) × (left : R.File) × ReadsFront (R.File.remaining opened) (R.File.remaining left) buf.new result }
{
    let Ok(path) = str::from_utf8(path) else {
        return 0;
    };
    match fs::open(files, path) {
        Ok(mut file) => read_open(&mut file, buf).unwrap_or(0),
        Err(_) => 0,
    }
}
