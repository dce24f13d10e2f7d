//! The listing: reads `timetable.txt` and queries from standard input, and writes what they print. It only moves bytes;
//! which ones it writes is said and proved in the crate listing_input.
#![tactic(auto)]

ghost use Rattle.std.specs.Prelude.{◌≡◌, ◌≤◌, length};

use listing_chunks::{CHUNK_BYTES, Kept, Unread};
use listing_input::TABLE_WORDS;
use listing_lines::LINE_BYTES;
use listing_stores::{OUT_BYTES, STORE_WORDS};
use std::io::{Cursor, Read, Write};
use std::rt::Files;
use std::{fs, io, str};

// One byte more than a text may have shows a text that is too long.
const TEXT_BYTES: usize = 65537;

// No query with this source makes a store: it is refused by its 11.
const NO_SOURCE: u32 = 0;

const TEXT_NAME: &str = "timetable.txt";

// The system tells why a read failed in fewer bytes.
const REASON_BYTES: usize = 256;

// Writes a line to standard error: what failed, a colon and why, in the system's words alone.
fn tell(rt: &impl Eprint, what: &str, error: io::Error) {
    let mut written = Cursor::new([0u8; REASON_BYTES]);
    let _ = write!(written, "{error}");
    let end = written.position();
    let bytes = written.into_inner();
    let len = bytes.len().min(end as usize);
    let text = str::from_utf8(&bytes[..len]).unwrap_or("");
    let reason = match text.split_once(" (os error ") {
        Some((words, _)) => words,
        None => text,
    };
    let _ = eprintln!(rt; "{what}: {reason}");
}

// Reads the timetable's file, as far as there is room for it. A file that cannot be opened counts as empty.
fn read_text(rt: &(impl Files + Eprint), text: &mut [u8]) -> Kept
    ensures { result.len ≤ length text.new }
{
    let mut file = match fs::open(rt, TEXT_NAME) {
        Ok(file) => file,
        Err(_) => {
            return Kept {
                len: 0,
                failed: None,
            };
        }
    };
    let kept = listing_chunks::read_file(&mut file, text);
    if let Some(error) = kept.failed {
        tell(rt, TEXT_NAME, error);
    }
    kept
}

// Writes the first bytes of out to standard output. A write that fails is not told.
fn write(rt: &impl Print, out: &[u8], count: usize)
    requires { count ≤ length out.now }
{
    let _ = rt.write_all(&out[0..count]);
}

// Reads the timetable and builds its line tables, and writes what it prints. Returns whether it was read to its end and
// accepted.
fn load(
    rt: &(impl Files + Print + Eprint),
    timetable: &mut [u16],
    lines: &mut [u16],
    work: &mut [u32],
    out: &mut [u8],
) -> bool
    requires timetable_len { length timetable.old ≡ 16384 }
    requires out_len { length out.old ≡ 196654 }
{
    let mut text = [0u8; TEXT_BYTES];
    let kept = read_text(rt, &mut text);
    if kept.failed.is_some() {
        return false;
    }
    let len = kept.len;
    let count = listing_input::load(&text[0..len], timetable, lines, work, out);
    write(rt, out, count);
    count == 0
}

// Ends the input, of whose last line these bytes were kept.
fn end_input(rt: &(impl Print + Eprint), bytes: &[u8], failed: Option<io::Error>, out: &mut [u8])
    requires { length out.old ≡ 196654 }
{
    if let Some(error) = failed {
        tell(rt, "standard input", error);
        return;
    }
    let count = listing_input::answer_end(bytes, out);
    write(rt, out, count);
}

// Writes what the input prints. No input has as many bytes as there are turns.
fn answer_input<R: Read>(
    rt: &(impl Print + Eprint),
    input: &mut R,
    timetable: &[u16],
    lines: &[u16],
    work: &mut [u32],
    out: &mut [u8],
)
    requires work_len { length work.old ≡ 16384 }
    requires out_len { length out.old ≡ 196654 }
{
    let mut store = [0u16; STORE_WORDS];
    let mut chunk = [0u8; CHUNK_BYTES];
    let mut line = [0u8; LINE_BYTES];
    let mut kept = 0;
    let mut unread = Unread {
        at: 0,
        end: 0,
        failed: None,
    };
    let mut made = listing_stores::make(timetable, lines, work, NO_SOURCE, &mut store);
    for _ in 0..u64::MAX {
        unread = listing_chunks::refill(input, &mut chunk, unread);
        let at = unread.at;
        let end = unread.end;
        if at == end {
            end_input(rt, &line[0..kept], unread.failed, out);
            break;
        }
        let taken = listing_input::answer_bytes(
            timetable,
            lines,
            &mut store,
            work,
            &chunk[at..end],
            &mut line,
            kept,
            made,
            out,
        );
        write(rt, out, taken.count);
        made = taken.made;
        kept = taken.kept;
        unread = listing_chunks::pass(unread, taken.used);
    }
}

fn main(rt: HostRuntime) {
    let mut timetable = [0u16; TABLE_WORDS];
    let mut lines = [0u16; TABLE_WORDS];
    let mut work = [0u32; TABLE_WORDS];
    let mut out = [0u8; OUT_BYTES];
    if load(&rt, &mut timetable, &mut lines, &mut work, &mut out) {
        let mut input = rt.stdin();
        answer_input(&rt, &mut input, &timetable, &lines, &mut work, &mut out);
    }
}
