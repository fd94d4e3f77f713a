// Questions 11 to 16: enum classes, blocks, ports.
#![tactic(auto)]

mod blocks;
mod sets;

ghost use Rattle.std.specs.Prelude.{◌≡◌, ◌+◌, ◌≤◌, length};
ghost use Rattle.state.specs.Outcome.{said};
ghost use Rattle.format.specs.Manifest.{value};
ghost use Rattle.questions.specs.Sets.{all, first};
ghost use Rattle.questions.specs.Declarations.{has_member, declarations};
ghost use Rattle.state_layout.specs.Tables.{Tabled, Leaves, manifest_of, room_start, room_end};
ghost use Rattle.state_layout.specs.Keys.{classes_of};

use blocks::blocks_answer;
use sets::{classes_are, ports_are};
use state::{Question, Section};
use state_index::keys::count_at;
use state_index::{position, text_end};
use state_layout::keys::{Classes, Connectors};
use state_layout::{Manifest, room_start};

// Question 11 of the classes that words list.
fn members_there(s: &[u8], classes: &[u32]) -> bool
    ensures { result ≡ all has_member (classes_of s.now classes.now) }
{
    classes
        .iter()
        .all(|word| count_at(s, text_end(s, position(*word))) != 0)
}

// Questions 11 to 16, or the first that says no.
#[tactic(auto, using(crate::proofs::Asking::asked))]
fn answer(m: Manifest, room: &mut [u32]) -> Result<(), Question>
    requires long { room_end m.s.now ≤ room_start m.s.now + length room.old }
    ensures { result ≡ said (first (declarations (manifest_of m.entry.s.now))) }
{
    let classes: Classes = m.keys(&[]);
    let connectors: Connectors = m.keys(&[]);
    let blocks = m.table(Section::BLOCKS);
    if !members_there(m.s, classes.words) {
        return Err(Question(11));
    }
    blocks_answer(classes, blocks)?;
    if !ports_are(connectors, blocks, &mut room[..connectors.words.len()]) {
        return Err(Question(15));
    }
    let marks = &mut room[..classes.words.len()];
    if !classes_are(classes, blocks, connectors.words, marks) {
        return Err(Question(16));
    }
    Ok(())
}

// Questions 11 to 16, or the first that says no. The words behind the tables are room for marks.
#[tactic(auto, using(state_layout::proofs::Indexed::laid_front, state_layout::proofs::Indexed::leaves_split, state_layout::proofs::Indexed::laid_of, state_layout::proofs::Indexed::room_behind))]
pub fn validate_declarations(s: &[u8], index: &mut [u32]) -> Result<(), Question>
    requires { Tabled s.now index.old }
    ensures value { result ≡ said (first (declarations (manifest_of s.now))) }
    ensures leaves { Leaves s.now index.old index.new }
{
    let end = room_start(s, index);
    let (words, room) = index.split_at_mut(end);
    answer(Manifest { s, words }, room)
}
