//! What a line of the listing's input asks.
#![tactic(auto)]

ghost use Rattle.std.specs.Prelude.{◌≡◌};
ghost use Rattle.listing_queries.specs.Query.{number_of, query_of};

const QUERY: u8 = 81;

const COMMA: u8 = text::COMMA;

const NUMBER_MOST: u32 = text::NUMBER_MOST;

// How many bytes the longest query has, its line end left aside.
pub const BYTES_MOST: usize = 16;

// A line `Q,from,to,minute`.
#[derive(Clone, Copy)]
pub struct Query {
    pub from: u32,
    pub to: u32,
    pub minute: u32,
}

// The number that a field holds.
fn number(field: &[u8]) -> Option<u32>
    ensures { result ≡ number_of field.now }
{
    let value = text::field_value(field);
    if NUMBER_MOST < value {
        return None;
    }
    Some(value)
}

// The query that a line holds, without its line end; none where the line is misshapen.
pub fn read_query(line: &[u8]) -> Option<Query>
    ensures { result ≡ query_of line.now }
{
    let n = line.len();
    if n < 2 || line[0] != QUERY || line[1] != COMMA {
        return None;
    }
    let first = text::piece_end(line, COMMA, 2);
    if first == n {
        return None;
    }
    let second = text::piece_end(line, COMMA, first + 1);
    if second == n {
        return None;
    }
    let third = text::piece_end(line, COMMA, second + 1);
    if third != n {
        return None;
    }
    let from = number(&line[2..first])?;
    let to = number(&line[first + 1..second])?;
    let minute = number(&line[second + 1..third])?;
    Some(Query { from, to, minute })
}
