//! The trips of one line: the piece of line tables, lent without a timetable, that holds their numbers.
#![tactic(auto)]

ghost use Rattle.std.specs.Prelude.{◌≡◌, ◌+◌, ◌≤◌, ◌<◌, length, take, drop};
ghost use Rattle.questions.specs.Refused.{number_seen};
ghost use Rattle.lines_piece.specs.Piece.{piece_number, start_told, length_told, piece};
ghost use Rattle.lines_piece.specs.Seen.{start_seen, count_seen};

use questions::Refusal;

// Where in line tables the numbers of a line's trips stand: the index of the first, and their count.
#[derive(Clone, Copy)]
pub struct Place {
    pub start: u32,
    pub count: u32,
}

// Questions 8, 10 and 11 to line tables and the number of a line. Working space may hold any words afterwards.
pub fn line_number(lines: &[u16], work: &mut [u32], line: u32) -> Result<(), Refusal>
    ensures { number_seen result ≡ piece_number lines.now (length work.old) line }
{
    lines_alone::alone_number(lines, work)?;
    if line < 1 {
        return Err(Refusal::NotNamed);
    }
    if lines_lookup::peek(lines, 1) < line as usize {
        return Err(Refusal::NotNamed);
    }
    Ok(())
}

// Where the trips of a line stand in the line tables.
pub fn line_place(lines: &[u16], work: &mut [u32], line: u32) -> Result<Place, Refusal>
    ensures number_value { (number_seen result ≡ piece_number lines.now (length work.old) line)
        × (start_seen result ≡ start_told lines.now (length work.old) line)
        × (count_seen result ≡ length_told lines.now (length work.old) line) }
    ensures count_in_bounds { start_seen result + count_seen result ≤ length lines.now }
    ensures start_bound { (start_seen result ≤ 16384) × (count_seen result < 65536) }
{
    line_number(lines, work, line)?;
    let l = lines_lookup::line_at(lines, line as usize - 1);
    Ok(Place {
        start: (l.at + 2) as u32,
        count: l.trips as u32,
    })
}

// The trips of a line: the part of the line tables that holds their numbers, or an empty one.
pub fn line_trips<'a>(lines: &'a [u16], work: &mut [u32], line: u32) -> &'a [u16]
    ensures piece { result.now ≡ piece lines.now (length work.old) line }
    ensures place { result.now
        ≡ take
        (length_told lines.now (length work.old) line)
        (drop (start_told lines.now (length work.old) line) lines.now) }
    ensures long { (length result.now ≡ length_told lines.now (length work.old) line)
        × (length result.now < 65536) }
{
    match line_place(lines, work, line) {
        Ok(place) => {
            let start = place.start as usize;
            let end = start + place.count as usize;
            &lines[start..end]
        }
        Err(_) => &lines[..0],
    }
}
