// A section's table whose keys ascend: looking up, and marks of the keys that were met.
ghost use Rattle.std.specs.Prelude.{◌≡◌, ◌≤◌, length};
ghost use Rattle.format.specs.Manifest.{numbered, value};
ghost use Rattle.format.specs.Values.{value_at};
ghost use Rattle.questions.specs.Sets.{all};
ghost use Rattle.questions.specs.Declarations.{enum_holds};
ghost use Rattle.state_index.specs.Words.{Found};
ghost use Rattle.state_layout.specs.Tables.{table_of};
ghost use Rattle.state_layout.specs.Marks.{is_set};
ghost use Rattle.state_layout.specs.Keys.{Ascends, Ascends-prop, classes_of, Met, MetNew};

use super::Manifest;
use super::hints::hints_range;
use state::{Section, WireValueType};
use state_index::keys::{byte_at, count_at};
use state_index::words::find_in;
use state_index::{ahead, text_end, text_part, word_at, words};

// The words that say where a section's entries start, whose keys ascend, and hints of the places of keys: a place plus 1, or 0, as the lent index has words alone.
#[derive(Clone, Copy)]
pub struct Keys<'a, const SECTION: u8> {
    pub s: &'a [u8],
    pub words: &'a [u32],
    pub hints: &'a [u32],
    pub ghost ascends: { Ascends (numbered SECTION) s.now words.now } by { Ascends-prop (numbered SECTION) s.now words.now },
}

// The tables in which keys are looked up.
pub type Classes<'a> = Keys<'a, { Section::ENUMS }>;

pub type Connectors<'a> = Keys<'a, { Section::CONNECTORS }>;

impl<'a> Manifest<'a> {
    // A section whose keys ascend, with the hints that may stand at the end of the room.
    #[tactic(auto, using(crate::proofs::Names::laid_ascends, crate::proofs::Indexed::start_there, crate::proofs::Indexed::start_next))]
    pub fn keys<const SECTION: u8>(self, room: &'a [u32]) -> Keys<'a, SECTION>
        requires section { (2 ≤ SECTION) × (SECTION ≤ 4) }
        ensures { (result.s.now ≡ self.entry.s.now) × (result.words.now ≡ table_of SECTION self.entry.s.now self.entry.words.now) }
    {
        let table = self.range(SECTION);
        let hints = match hints_range(room.len(), &table) {
            Some(hints) => &room[hints],
            None => &[],
        };
        Keys {
            s: self.s,
            words: &self.words[table],
            hints,
        }
    }
}

impl<'a, const SECTION: u8> Keys<'a, SECTION> {
    // The place of the word whose entry has the key; place `hint` is tried first.
    pub fn find(self, key: &[u8], hint: usize) -> Option<usize>
        ensures { Found (numbered SECTION) self.entry.s.now self.entry.words.now key.now result }
    {
        words::find::<SECTION>(self.s, self.words, self.hints, key, hint)
    }

    // Finds a key and sets its mark. Marks are words of the lent index: there is no other memory.
    #[tactic(auto, using(crate::proofs::Meeting::unmet))]
    pub fn mark(self, marks: &mut [u32], key: &[u8], hint: usize) -> Option<usize>
        requires { length marks.old ≡ length self.words.now }
        ensures { Met (numbered SECTION) self.entry.s.now self.entry.words.now key.now result marks.old marks.new }
    {
        let i = self.find(key, hint)?;
        marks[i] = 1;
        Some(i)
    }

    // The same, where the mark is not set yet; a key whose mark is set counts as not found.
    // Not one function with `mark`: what they share is the search, a call already.
    #[tactic(auto, using(crate::proofs::Meeting::unmet_new))]
    pub fn mark_new(self, marks: &mut [u32], key: &[u8], hint: usize) -> Option<usize>
        requires { length marks.old ≡ length self.words.now }
        ensures { MetNew (numbered SECTION) self.entry.s.now self.entry.words.now key.now result marks.old marks.new }
    {
        let i = self.find(key, hint)?;
        let mark = &mut marks[i];
        if *mark != 0 {
            return None;
        }
        *mark = 1;
        Some(i)
    }
}

// `mark` and `mark_new` over any words whose keys ascend, in a section that is a number when the program runs.
#[tactic(auto, using(crate::proofs::Meeting::unmet))]
pub fn mark(
    s: &[u8],
    section: u8,
    words: &[u32],
    hints: &[u32],
    marks: &mut [u32],
    key: &[u8],
    hint: usize,
) -> Option<usize>
    requires ascends { Ascends (numbered section) s.now words.now }
    requires long { length marks.old ≡ length words.now }
    ensures { Met (numbered section) s.now words.now key.now result marks.old marks.new }
{
    let place = find_in(s, section, words, hints, key, hint)?;
    marks[place] = 1;
    Some(place)
}

#[tactic(auto, using(crate::proofs::Meeting::unmet_new))]
pub fn mark_new(
    s: &[u8],
    section: u8,
    words: &[u32],
    hints: &[u32],
    marks: &mut [u32],
    key: &[u8],
    hint: usize,
) -> Option<usize>
    requires ascends { Ascends (numbered section) s.now words.now }
    requires long { length marks.old ≡ length words.now }
    ensures { MetNew (numbered section) s.now words.now key.now result marks.old marks.new }
{
    let place = find_in(s, section, words, hints, key, hint)?;
    let met = &mut marks[place];
    if *met != 0 {
        return None;
    }
    *met = 1;
    Some(place)
}

// Whether all marks are set.
pub fn all_marked(marks: &[u32]) -> bool
    ensures { result ≡ all is_set marks.now }
{
    marks.iter().all(|m| *m != 0)
}

// Is the value at a position of a class that is listed, its ordinal in range, if it is an enum value at all?
#[tactic(auto, using(crate::proofs::Choosing::no_enum, crate::proofs::Classed::class_unlisted, crate::proofs::Classed::class_zero, crate::proofs::Classed::class_range))]
pub fn validate_value_enum(classes: Classes, t: &[u8], at: usize) -> bool
    ensures { result ≡ enum_holds (classes_of classes.entry.s.now classes.entry.words.now) (value_at value t.now at) }
{
    if byte_at(t, at) != WireValueType::ENUM {
        return true;
    }
    let class = ahead(t, at, 1);
    let Some(i) = classes.find(text_part(t, class), 0) else {
        return false;
    };
    let ordinal = count_at(t, text_end(t, class));
    let members = count_at(classes.s, text_end(classes.s, word_at(classes.words, i)));
    0 < ordinal && ordinal <= members
}
