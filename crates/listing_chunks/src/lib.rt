//! The bytes of a file, and of standard input chunk by chunk.
#![tactic(auto)]

ghost use Rattle.std.specs.Io.{ReadsAtMost};
ghost use Rattle.std.specs.Prelude.{◌≡◌, ◌+◌, ◌≤◌, length};

use std::io;
use std::io::{ErrorKind, Read};

pub const CHUNK_BYTES: usize = 4096;

// The bytes of a chunk that have been read and not yet been looked at: from index at up to index end. There are none
// where the last read failed; why it did is kept.
#[derive(Clone, Copy)]
pub struct Unread {
    pub at: usize,
    pub end: usize,
    pub failed: Option<io::Error>,
}

// How many bytes of a file were kept, and whether a read failed before its end, and why.
#[derive(Clone, Copy)]
pub struct Kept {
    pub len: usize,
    pub failed: Option<io::Error>,
}

// Reads once, and again where a signal interrupts it. Returns what the last read returned.
fn read<R: Read>(reader: &mut R, chunk: &mut [u8]) -> io::Result<usize>
    ensures { ReadsAtMost result chunk.new }
{
    let mut got = reader.read(chunk);
    for _ in 0..u64::MAX {
        match &got {
            Err(error) if error.kind() == ErrorKind::Interrupted => {}
            _ => break,
        }
        got = reader.read(chunk);
    }
    got
}

// Reads a chunk if no byte is left unread. None is left after it only where the bytes have ended or a read failed.
pub fn refill<R: Read>(reader: &mut R, chunk: &mut [u8], unread: Unread) -> Unread
    requires ordered { unread.at ≤ unread.end }
    requires within { unread.end ≤ length chunk.old }
    ensures ordered { result.at ≤ result.end }
    ensures within { result.end ≤ length chunk.new }
    ensures same_length { length chunk.new ≡ length chunk.old }
{
    if unread.at < unread.end {
        return unread;
    }
    match read(reader, chunk) {
        Ok(end) => Unread {
            at: 0,
            end,
            failed: None,
        },
        Err(error) => Unread {
            at: 0,
            end: 0,
            failed: Some(error),
        },
    }
}

// What is unread after so many more bytes of the chunk were looked at.
pub fn pass(unread: Unread, used: usize) -> Unread
    requires { unread.at + used ≤ unread.end }
    ensures at { result.at ≡ unread.at + used }
    ensures ordered { result.at ≤ result.end }
    ensures end { result.end ≡ unread.end }
{
    Unread {
        at: unread.at + used,
        end: unread.end,
        failed: None,
    }
}

// Reads a file to its end, or until there is no room for more of it.
pub fn read_file<R: Read>(reader: &mut R, text: &mut [u8]) -> Kept
    ensures { result.len ≤ length text.new }
{
    let mut chunk = [0u8; CHUNK_BYTES];
    let mut unread = Unread {
        at: 0,
        end: 0,
        failed: None,
    };
    let mut len = 0;
    while len < text.len() {
        unread = refill(reader, &mut chunk, unread);
        let at = unread.at;
        if at == unread.end {
            break;
        }
        text[len] = chunk[at];
        unread = pass(unread, 1);
        len += 1;
    }
    Kept {
        len,
        failed: unread.failed,
    }
}
