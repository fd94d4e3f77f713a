// Input definitions against the external inputs: questions 27 to 30.
#![tactic(auto)]

mod definitions;
mod paths;

ghost use Rattle.std.specs.Prelude.{◌≡◌, ◌*◌, ◌≤◌, length};
ghost use Rattle.state.specs.Outcome.{said};
ghost use Rattle.format.specs.Fields.{connectors_of};
ghost use Rattle.questions.specs.Sets.{first};
ghost use Rattle.questions.specs.Inputs.{input_definitions_hold};
ghost use Rattle.state_layout.specs.Tables.{Tabled, Leaves, manifest_of};

use definitions::definitions_answer;
use paths::{count_paths, external_paths};
use state::{Question, Section};
use state_layout::keys::{Classes, Connectors};
use state_layout::{Manifest, room_start};

// Questions 27 to 30: two words of room for each connector, one for its mark and one for its path.
#[tactic(auto, using(crate::proofs::Tabled::connectors_long))]
fn inputs_answer(m: Manifest, room: &mut [u32]) -> Result<(), Question>
    requires { 2 * length (connectors_of (manifest_of m.s.now)) ≤ length room.old }
    ensures { result ≡ said (first (input_definitions_hold (manifest_of m.entry.s.now))) }
{
    let classes: Classes = m.keys(&[]);
    let definitions = m.table(Section::INPUT_DEFINITIONS);
    let n = m.table(Section::CONNECTORS).len();
    let (marks, rest) = room.split_at_mut(n);
    let (paths, hints) = rest.split_at_mut(n);
    let connectors: Connectors = m.keys(hints);
    let inputs = m.table(Section::EXTERNAL_INPUTS);
    let paths = external_paths(connectors, inputs, marks, paths);
    let count = count_paths(m.s, paths).ok_or(Question(27))?;
    if count != definitions.len() {
        return Err(Question(28));
    }
    definitions_answer(classes, paths, definitions)
}

// Questions 27 to 30, or the first of them that says no.
#[tactic(auto, using(state_layout::proofs::Indexed::laid_of, state_layout::proofs::Indexed::laid_front, state_layout::proofs::Indexed::leaves_split, crate::proofs::Tabled::room_there))]
pub fn validate_inputs(s: &[u8], index: &mut [u32]) -> Result<(), Question>
    requires { Tabled s.now index.old }
    ensures value { result ≡ said (first (input_definitions_hold (manifest_of s.now))) }
    ensures leaves { Leaves s.now index.old index.new }
{
    let end = room_start(s, index);
    let (words, room) = index.split_at_mut(end);
    inputs_answer(Manifest { s, words }, room)
}
