// A reader that holds the lent bytes, a position in them and the offset of the first byte: state_wire's functions as its methods.
#![tactic(auto)]

ghost use Rattle.std.specs.Prelude.{◌≡◌, ◌-◌, length, eqb};
ghost use Rattle.state.specs.Outcome.{step_of, field_of, offset_of};
ghost use Rattle.state_wire.specs.Fields.{read_number, read_text, text_of};
ghost use Rattle.state_reader.specs.Read.{string_read, opened, moved_to, past_field};

use state::{Field, Refusal, Step};

#[derive(Clone, Copy)]
pub struct Reader<'a> {
    pub bytes: &'a [u8],
    pub position: usize,
    pub base_offset: u64,
}

// Where the text of a string begins and ends. Not a `Range`, which is not `Copy`.
#[derive(Clone, Copy, PartialEq, Eq)]
pub struct TextSpan {
    pub start: usize,
    pub end: usize,
}

// Where the text of a string begins and ends; or the question that fails, and the offset.
pub type StringRead = Result<TextSpan, Refusal<u64>>;

// A string of at most `limit` bytes, with its place or the offset of its refusal.
#[tactic(auto, unfolding(state_wire::specs::Fields::read_text, state_wire::specs::Fields::read_number, state_wire::specs::Fields::read_span))]
pub fn string_at(s: &[u8], at: usize, base: u64, limit: usize) -> StringRead
    ensures { result ≡ string_read base at (read_text limit s.now at) }
{
    state_wire::string_bounded(s, at, limit)
        .map(|next| TextSpan {
            start: at + 4,
            end: next,
        })
        .map_err(|r| r.question.at(state_wire::offset(base, r.at)))
}

// Where reading goes on after a number: a refused one leaves the place.
pub fn past_field(f: Field, at: usize) -> usize
    ensures { result ≡ past_field f at }
{
    f.map_or(at, |(_, next)| next)
}

// Each method takes the reader apart for one call or comparison. `u8`, `u32` and `u64` have the Rust's names, where `read_number` is one for all.
impl<'a> Reader<'a> {
    pub fn new(bytes: &'a [u8], base_offset: u64) -> Reader<'a>
        ensures { result ≡ opened bytes.entry base_offset }
    {
        Reader {
            bytes,
            position: 0,
            base_offset,
        }
    }

    // The same bytes, read on from another position.
    pub fn moved(self, position: usize) -> Reader<'a>
        ensures { result ≡ moved_to self.entry position }
    {
        Reader { position, ..self }
    }

    pub fn offset(self) -> u64
        ensures { result ≡ offset_of self.entry.base_offset self.entry.position }
    {
        state_wire::offset(self.base_offset, self.position)
    }

    pub fn remaining(self) -> usize
        ensures { result ≡ length self.entry.bytes.now - self.entry.position }
    {
        state_wire::remaining(self.bytes, self.position)
    }

    pub fn is_empty(self) -> bool
        ensures { result ≡ eqb self.entry.position (length self.entry.bytes.now) }
    {
        self.position == self.bytes.len()
    }

    pub fn u8(self) -> Field
        ensures { result ≡ field_of (read_number 1 self.entry.bytes.now self.entry.position) }
    {
        state_wire::read_number::<1>(self.bytes, self.position)
    }

    pub fn u32(self) -> Field
        ensures { result ≡ field_of (read_number 4 self.entry.bytes.now self.entry.position) }
    {
        state_wire::read_number::<4>(self.bytes, self.position)
    }

    pub fn u64(self) -> Field
        ensures { result ≡ field_of (read_number 8 self.entry.bytes.now self.entry.position) }
    {
        state_wire::read_number::<8>(self.bytes, self.position)
    }

    pub fn string_bounded(self, limit: usize) -> Step
        ensures { result ≡ step_of (read_text limit self.entry.bytes.now self.entry.position) }
    {
        state_wire::string_bounded(self.bytes, self.position, limit)
    }

    // The text of a string, as the part of the lent bytes that it occupies: empty where the reading is refused.
    pub fn string_text(self, limit: usize) -> &'a [u8]
        ensures { result.now ≡ text_of (read_text limit self.entry.bytes.now self.entry.position) }
    {
        state_wire::string_text(self.bytes, self.position, limit)
    }

    pub fn string_read(self, limit: usize) -> StringRead
        ensures { result ≡ string_read self.entry.base_offset self.entry.position (read_text limit self.entry.bytes.now self.entry.position) }
    {
        string_at(self.bytes, self.position, self.base_offset, limit)
    }

    // A number, and the reader goes on past it, as the Rust's do.
    pub fn next_u32<'s>(&'s mut self) -> Field
        ensures { (result ≡ field_of (read_number 4 self.old.bytes.now self.old.position)) × (self.new ≡ moved_to self.old (past_field result self.old.position)) }
    {
        let f = state_wire::read_number::<4>(self.bytes, self.position);
        self.position = past_field(f, self.position);
        f
    }
}

// The string that stands first, through a reader: callers of this one need no proof by hand.
pub fn read_string(bytes: &[u8], base: u64, limit: usize) -> StringRead
    ensures { result ≡ string_read base 0 (read_text limit bytes.now 0) }
{
    Reader::new(bytes, base).string_read(limit)
}
