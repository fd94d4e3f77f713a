// What a manifest that was read holds, found again by its lengths and tags and by the tables of the lent index: nothing is validated twice.
#![tactic(auto)]

pub mod ends;
mod hints;
pub mod keys;

ghost use Rattle.std.specs.Prelude.{◌≡◌, ◌≤◌, ◌-◌, suc, length, get_or};
ghost use Rattle.format.specs.Manifest.{value_type};
ghost use Rattle.format.specs.Values.{value_at};
ghost use Rattle.questions.specs.Inputs.{same_type};
ghost use Rattle.state_layout.specs.Tables.{Laid, table_start, table_of, room_start, manifest_of};
ghost use Rattle.state_layout.specs.Laid.{Laid-prop};

use state::{Section, WireValueType};
use state_index::keys::{byte_at, count_at};
use state_index::{ahead, text_part, word_at};
use state_key_order::same_bytes;
use std::ops::Range;

// Are the value types at a position of s and at one of t the same?
#[tactic(auto, using(crate::proofs::Choosing::types_apart, crate::proofs::Choosing::types_plain, crate::proofs::Choosing::types_enum))]
pub fn same_type(s: &[u8], a: usize, t: &[u8], b: usize) -> bool
    ensures { result ≡ same_type (value_at value_type s.now a) (value_at value_type t.now b) }
{
    let tag = byte_at(s, a);
    tag == byte_at(t, b)
        && (tag != WireValueType::ENUM
            || same_bytes(text_part(s, ahead(s, a, 1)), text_part(t, ahead(t, b, 1))))
}

// Where a section starts: a word in front of the tables, and of the index after acceptance.
pub fn section_start(starts: &[u32], section: u8) -> usize
    requires { (1 ≤ section) × (section ≤ length starts.now) }
    ensures { result ≡ get_or starts.now (section - 1) 0 }
{
    word_at(starts, usize::from(section) - 1)
}

// From which word of the index on the entries of a section stand; behind the last one's the room begins.
#[tactic(auto, using(crate::proofs::Indexed::reach_start, crate::proofs::Indexed::reach_next, crate::proofs::Indexed::reach_end))]
pub fn table_start(s: &[u8], index: &[u32], section: u8) -> usize
    requires laid { Laid s.now index.now }
    requires section_bound { section ≤ 13 }
    ensures { result ≡ table_start section (manifest_of s.now) }
{
    // As a `sum` it would have to be shown besides that eleven numbers of 32 bits fit, and be no plainer.
    let mut w = 12;
    for k in Section::ENUMS..section {
        w += count_at(s, section_start(index, k));
    }
    w
}

// Where the room behind all tables begins. One past the last section: its table would begin where the room does. Each call splits the index there
// in its own body, since that the tables stay follows from the split alone (`leaves_split`).
pub fn room_start(s: &[u8], index: &[u32]) -> usize
    requires { Laid s.now index.now }
    ensures { result ≡ room_start s.now }
{
    table_start(s, index, Section::INPUT_DEFINITIONS + 1)
}

// A manifest that was read: its bytes, and the words that begin with the starts of its sections and of their entries.
#[derive(Clone, Copy)]
pub struct Manifest<'a> {
    pub s: &'a [u8],
    pub words: &'a [u32],
    pub ghost laid: { Laid s.now words.now } by { Laid-prop s.now words.now },
}

impl<'a> Manifest<'a> {
    // Where the table of a section lies.
    pub(crate) fn range(self, section: u8) -> Range<usize>
        requires section_bound { section ≤ 12 }
        ensures { (result.start ≡ table_start section (manifest_of self.entry.s.now)) × (result.end ≡ table_start (suc section) (manifest_of self.entry.s.now)) }
    {
        table_start(self.s, self.words, section)..table_start(self.s, self.words, section + 1)
    }

    // The table of a section: the words that say where its entries start. Section numbers are bytes, as document 01 has them, so bounds are clauses.
    #[tactic(auto, using(crate::proofs::Indexed::start_next, crate::proofs::Indexed::start_there))]
    pub fn table(self, section: u8) -> &'a [u32]
        requires section_bound { section ≤ 12 }
        ensures { result.now ≡ table_of section self.entry.s.now self.entry.words.now }
    {
        &self.words[self.range(section)]
    }
}
