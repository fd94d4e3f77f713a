// Keys that name blocks and connectors: questions 17 to 20, 25 and 26.
#![tactic(auto)]

mod entries;
mod sets;

ghost use Rattle.std.specs.Prelude.{◌≡◌, true, map, ◌&&◌, ◌≤◌, ℕ, Bool, List, is_some, take, length};
ghost use Rattle.state.specs.Outcome.{said};
ghost use Rattle.format.specs.Lists.{all_different};
ghost use Rattle.format.specs.Manifest.{connectors};
ghost use Rattle.format.specs.Fields.{connectors_of, drivers_of, external_inputs_of, boundary_outputs_of, output_name};
ghost use Rattle.questions.specs.Sets.{all, all_in, each_once, first};
ghost use Rattle.questions.specs.Declarations.{connector_names};
ghost use Rattle.questions.specs.References.{drivers_hold, externals_hold, outputs_hold, references, boundaries};
ghost use Rattle.state_layout.specs.Tables.{manifest_of, table_of, Tabled, Leaves};
ghost use Rattle.state_layout.specs.Marks.{is_set};
ghost use Rattle.state_layout.specs.Lent.{keys_in};
ghost use Rattle.state_references.specs.Known.{of_way};
ghost use Rattle.state_references.specs.Rooms.{Roomy, keys_listed};

use entries::{drives, has_source, is_of_way, joins, same_key};
use sets::{all_new, texts_differ};
use state::{Question, Section, WireDir};
use state_index::position;
use state_layout::keys::{Connectors, all_marked};
use state_layout::{Manifest, room_start};

// Whether what is asked of an entry by itself holds of each of a section's. It is given the place to try first, which the entry before answered.
fn entries_hold<F: Fn(Connectors, usize, usize) -> Option<usize>>(
    m: Manifest,
    room: &[u32],
    section: u8,
    holds: F,
) -> bool
    ghost test: { List ℕ → List (List ℕ) → ℕ → Bool }
    requires section_bound { section ≤ 12 }
    requires callable { F.IsAlwaysCallable holds }
    requires tells { (known : _) (p hint : ℕ) (f : _) → F.post holds known p hint f → is_some f ≡ test known.s.now (keys_in connectors known) p }
    ensures { result ≡ all (test m.entry.s.now (connector_names (connectors_of (manifest_of m.entry.s.now)))) (table_of section m.entry.s.now m.entry.words.now) }
{
    let known: Connectors = m.keys(room);
    m.table(section)
        .iter()
        .try_fold(0, |hint, word| holds(known, position(*word), hint))
        .is_some()
}

// Question 20: as many drivers as connectors, and their keys known.
#[tactic(auto, using(crate::proofs::Answered::drivers_answer, crate::proofs::Answered::drivers_long, crate::proofs::Answered::connectors_long), unfolding(questions::specs::References::drivers_hold))]
fn drivers_hold(m: Manifest, room: &[u32]) -> bool
    ensures { result ≡ drivers_hold (drivers_of (manifest_of m.entry.s.now)) (connectors_of (manifest_of m.entry.s.now)) }
{
    let drivers = m.table(Section::DRIVER_OF);
    let connectors = m.table(Section::CONNECTORS);
    drivers.len() == connectors.len() && entries_hold(m, room, Section::DRIVER_OF, drives)
}

// Are the keys that a section lists known, as those of section SECTION, and all different? The marks of those that are listed stand at the
// front of the room, since hints stand at its end.
#[tactic(auto, using(crate::proofs::Answered::room_marks))]
fn all_listed_new<const SECTION: u8>(m: Manifest, room: &mut [u32], listed: u8) -> bool
    requires roomy { Roomy m.s.now room.old }
    requires section { (2 ≤ SECTION) × (SECTION ≤ 4) }
    requires listed_bound { listed ≤ 12 }
    ensures answer { result ≡ (all_in (keys_listed SECTION listed m.entry.s.now m.entry.words.now) (keys_listed SECTION SECTION m.entry.s.now m.entry.words.now) && all_different (keys_listed SECTION listed m.entry.s.now m.entry.words.now)) }
    ensures marked { result ≡ true → all is_set (take (length (table_of SECTION m.entry.s.now m.entry.words.now)) room.new) ≡ all_in (keys_listed SECTION SECTION m.entry.s.now m.entry.words.now) (keys_listed SECTION listed m.entry.s.now m.entry.words.now) }
{
    let (marks, hints) = room.split_at_mut(m.table(SECTION).len());
    let keys = m.keys::<SECTION>(hints);
    all_new(keys, marks, m.table(listed))
}

// Are they that section's keys, each once?
#[tactic(auto, using(crate::proofs::Answered::room_marks, crate::proofs::Meeting::once_all, crate::proofs::Meeting::once_not))]
fn require_exact_set<const SECTION: u8>(m: Manifest, room: &mut [u32], listed: u8) -> bool
    requires roomy { Roomy m.s.now room.old }
    requires section { (2 ≤ SECTION) × (SECTION ≤ 4) }
    requires listed_bound { listed ≤ 12 }
    ensures { result ≡ each_once (keys_listed SECTION listed m.entry.s.now m.entry.words.now) (keys_listed SECTION SECTION m.entry.s.now m.entry.words.now) }
{
    let count = m.table(SECTION).len();
    all_listed_new::<SECTION>(m, room, listed) && all_marked(&room[..count])
}

// Questions 17 to 20. `Roomy` is a clause, not a type's: the room is lent anew to each question, and a struct of it would be made for each.
#[tactic(auto, using(crate::proofs::Answered::connections_answer, crate::proofs::Answered::schedule_answer, crate::proofs::Answered::order_answer, crate::proofs::Answered::no_first, crate::proofs::Answered::yes_first, crate::proofs::Answered::yes_all), unfolding(questions::specs::References::references))]
fn ask_references(m: Manifest, room: &mut [u32]) -> Result<(), Question>
    requires roomy { Roomy m.s.now room.old }
    ensures { result ≡ said (first (references (manifest_of m.entry.s.now))) }
{
    if !entries_hold(m, room, Section::CONNECTIONS, joins) {
        return Err(Question(17));
    }
    if !require_exact_set::<{ Section::BLOCKS }>(m, room, Section::SCHEDULE) {
        return Err(Question(18));
    }
    if !require_exact_set::<{ Section::CONNECTORS }>(m, room, Section::CONNECTOR_ORDER) {
        return Err(Question(19));
    }
    if !drivers_hold(m, room) {
        return Err(Question(20));
    }
    Ok(())
}

// Whether words that list keys of a section begin and end with the first and the last of its own. Then they are most likely in order, so that
// no hints are needed; it promises nothing.
fn ends_alike(s: &[u8], section: u8, words: &[u32], listed: &[u32]) -> bool {
    match (words, listed) {
        ([first, .., last], [first_listed, .., last_listed]) => {
            same_key(s, section, position(*first), position(*first_listed))
                && same_key(s, section, position(*last), position(*last_listed))
        }
        _ => true,
    }
}

// Hints of the blocks, if the schedule needs them.
fn fill_block_hints(m: Manifest, room: &mut [u32]) {
    let blocks = m.table(Section::BLOCKS);
    let schedule = m.table(Section::SCHEDULE);
    if !ends_alike(m.s, Section::BLOCKS, blocks, schedule) {
        m.fill_hints(room, Section::BLOCKS);
    }
}

// Questions 17 to 20, with hints of the tables in which keys are looked up; the connectors' serve 25 to 27 and 34 as well.
#[tactic(auto, using(state_layout::proofs::Indexed::laid_of, state_layout::proofs::Indexed::laid_front, state_layout::proofs::Indexed::leaves_split, state_layout::proofs::Indexed::room_behind))]
pub fn validate_references(s: &[u8], index: &mut [u32]) -> Result<(), Question>
    requires { Tabled s.now index.old }
    ensures value { result ≡ said (first (references (manifest_of s.now))) }
    ensures leaves { Leaves s.now index.old index.new }
{
    let end = room_start(s, index);
    let (words, room) = index.split_at_mut(end);
    let m = Manifest { s, words };
    fill_block_hints(m, room);
    m.fill_hints(room, Section::CONNECTORS);
    ask_references(m, room)
}

// Question 25 of the external inputs one by one: of direction in.
fn inputs_directed(m: Manifest) -> bool
    ensures { result ≡ all (of_way m.entry.s.now 0) (table_of 10 m.entry.s.now m.entry.words.now) }
{
    m.table(Section::EXTERNAL_INPUTS)
        .iter()
        .all(|word| is_of_way(m.s, WireDir::IN, position(*word)))
}

// Are the names of the boundary outputs, with which they start, all different?
#[tactic(auto, using(crate::proofs::Answered::names_answer, crate::proofs::Answered::room_names))]
fn names_differ(m: Manifest, room: &mut [u32]) -> bool
    requires roomy { Roomy m.s.now room.old }
    ensures { result ≡ all_different (map output_name (boundary_outputs_of (manifest_of m.entry.s.now))) }
{
    texts_differ(m.s, m.table(Section::BOUNDARY_OUTPUTS), room)
}

// Question 25.
#[tactic(auto, using(crate::proofs::Answered::externals_answer, crate::proofs::Answered::externals_other))]
fn externals_hold(m: Manifest, room: &mut [u32]) -> bool
    requires roomy { Roomy m.s.now room.old }
    ensures { result ≡ externals_hold (external_inputs_of (manifest_of m.entry.s.now)) (connectors_of (manifest_of m.entry.s.now)) }
{
    inputs_directed(m)
        && all_listed_new::<{ Section::CONNECTORS }>(m, room, Section::EXTERNAL_INPUTS)
}

// Question 26.
#[tactic(auto, using(crate::proofs::Answered::sources_answer), unfolding(questions::specs::References::outputs_hold))]
fn outputs_hold(m: Manifest, room: &mut [u32]) -> bool
    requires roomy { Roomy m.s.now room.old }
    ensures { result ≡ outputs_hold (boundary_outputs_of (manifest_of m.entry.s.now)) (connectors_of (manifest_of m.entry.s.now)) }
{
    entries_hold(m, room, Section::BOUNDARY_OUTPUTS, has_source) && names_differ(m, room)
}

// Questions 25 and 26.
#[tactic(auto, using(crate::proofs::Answered::no_first, crate::proofs::Answered::yes_first, crate::proofs::Answered::yes_all), unfolding(questions::specs::References::boundaries))]
fn ask_boundaries(m: Manifest, room: &mut [u32]) -> Result<(), Question>
    requires roomy { Roomy m.s.now room.old }
    ensures { result ≡ said (first (boundaries (manifest_of m.entry.s.now))) }
{
    if !externals_hold(m, room) {
        return Err(Question(25));
    }
    if !outputs_hold(m, room) {
        return Err(Question(26));
    }
    Ok(())
}

// Questions 25 and 26.
#[tactic(auto, using(state_layout::proofs::Indexed::laid_of, state_layout::proofs::Indexed::laid_front, state_layout::proofs::Indexed::leaves_split, state_layout::proofs::Indexed::room_behind))]
pub fn validate_boundaries(s: &[u8], index: &mut [u32]) -> Result<(), Question>
    requires { Tabled s.now index.old }
    ensures value { result ≡ said (first (boundaries (manifest_of s.now))) }
    ensures leaves { Leaves s.now index.old index.new }
{
    let end = room_start(s, index);
    let (words, room) = index.split_at_mut(end);
    ask_boundaries(Manifest { s, words }, room)
}
