// Files and inputs, read whole. What fails is told on standard error, by its name and the system's word.
ghost use Rattle.std.specs.Prelude.{◌≡◌, ◌≤◌, length, take, vec_len, IfOk, IfSome};
ghost use Rattle.std.specs.Io.KnownBytes.{Consumes};

use crate::saying::told;
use std::fs::File;
use std::io::{Error, ErrorKind, Read};
use std::{fs, io, str};

// std opens only a name that is UTF-8.
fn open_named(rt: HostRuntime, path: &[u8]) -> io::Result<File> {
    let name = str::from_utf8(path).map_err(|_| Error::from(ErrorKind::InvalidFilename))?;
    fs::open(&rt, name)
}

// A file, or why it cannot be opened, which has been told.
pub fn open(rt: HostRuntime, path: &[u8]) -> io::Result<File> {
    told(rt, path, open_named(rt, path))
}

// Reads until the input ends, a read fails or the room is full; how many bytes came, also where a read failed.
// std's read_to_end asks for a part of its room first, and an input that hands over a message at a time drops the rest.
fn fill<R: Read>(from: &mut R, room: &mut [u8]) -> (usize, io::Result<()>)
    ensures within { result.0 ≤ length room.new }
    ensures none_lost { Consumes (R.remaining from.old) (R.remaining from.new) (take result.0 room.new) }
{
    let mut n = 0;
    // A proved loop has to end, and nothing says that signals do.
    for _ in 0..u64::MAX {
        if n == room.len() {
            break;
        }
        match from.read(&mut room[n..]) {
            Ok(0) => break,
            Ok(came) => n += came,
            Err(error) if error.kind() == ErrorKind::Interrupted => {}
            Err(error) => return (n, Err(error)),
        }
    }
    (n, Ok(()))
}

fn read_up_to<R: Read>(from: &mut R, most: usize, bytes: &mut Vec<u8>) -> io::Result<()>
    ensures within { vec_len bytes.new ≤ most }
    ensures none_lost { Consumes (R.remaining from.old) (R.remaining from.new) bytes.new.items }
{
    bytes.clear();
    bytes.resize(most, 0)?;
    let (n, read) = fill(from, bytes);
    bytes.truncate(n);
    read
}

// Reads until the input ends or there are so many bytes; what fails has been told. What was in `bytes` goes, and what
// came before a read failed stays there. Room for `most` bytes is taken first.
pub fn read_whole_into<R: Read>(
    rt: HostRuntime,
    from: &mut R,
    name: &[u8],
    most: usize,
    bytes: &mut Vec<u8>,
) -> io::Result<()>
    ensures within { vec_len bytes.new ≤ most }
    ensures none_lost { Consumes (R.remaining from.old) (R.remaining from.new) bytes.new.items }
{
    told(rt, name, read_up_to(from, most, bytes))
}

// Reads the file of a name, as `read_whole_into` reads.
pub fn read_file_into(
    rt: HostRuntime,
    path: &[u8],
    most: usize,
    bytes: &mut Vec<u8>,
) -> io::Result<()>
    ensures { vec_len bytes.new ≤ most }
{
    bytes.clear();
    read_whole_into(rt, &mut open(rt, path)?, path, most, bytes)
}

// Room is asked for as the bytes come, and not all at once, so `most` may be any number.
fn take_up_to<R: Read>(rt: HostRuntime, from: &mut R, most: usize) -> io::Result<Vec<u8>>
    ensures within { IfOk result (λ bytes. vec_len bytes ≤ most) }
    ensures whole { IfOk result (λ bytes. IfSome (R.remaining from.old) (λ xs. bytes.items ≡ take most xs)) }
{
    let mut bytes = Vec::new(rt.alloc());
    from.take(most as u64).read_to_end(&mut bytes)?;
    bytes.truncate(most);
    Ok(bytes)
}

// Reads until the input ends or there are so many bytes; what fails has been told. What came before a read failed is
// lost, and so is the rest of a message that has no room: an input of messages is for `read_whole_into`.
pub fn read_whole<R: Read>(
    rt: HostRuntime,
    from: &mut R,
    name: &[u8],
    most: usize,
) -> io::Result<Vec<u8>>
    ensures within { IfOk result (λ bytes. vec_len bytes ≤ most) }
    ensures whole { IfOk result (λ bytes. IfSome (R.remaining from.old) (λ xs. bytes.items ≡ take most xs)) }
{
    told(rt, name, take_up_to(rt, from, most))
}

// Reads the file of a name, as `read_whole` reads.
pub fn read_file(rt: HostRuntime, path: &[u8], most: usize) -> io::Result<Vec<u8>>
    ensures { IfOk result (λ bytes. vec_len bytes ≤ most) }
{
    read_whole(rt, &mut open(rt, path)?, path, most)
}
