// A manifest that is judged: questions 1 to 32 in their order, what a call answers and leaves of the lent index, and the units.
#![tactic(auto)]

ghost use Rattle.std.specs.Prelude.{◌≡◌, cond, ◌++◌, ◌-◌, ◌≤◌, ◌^◌, eqb, leb, length, take, replicate};
ghost use Rattle.state.specs.Outcome.{got, said};
ghost use Rattle.questions.specs.Portability.{target_bound_classes};
ghost use Rattle.questions.specs.Order.{first_failing};
ghost use Rattle.questions.specs.Answers.{offset_at, outside, starts_of};
ghost use Rattle.questions.specs.Units.{units_of, units_answer};
ghost use Rattle.state_layout.specs.Tables.{Tabled, Leaves, manifest_of};
ghost use Rattle.manifest.specs.Accepted.{Accepted};
ghost use Rattle.manifest.specs.Judges.{Judges};

use state::{Question, Refusal, Section, Starts, Step, Units};
use state_declarations::validate_declarations;
use state_index::keys::count_at;
use state_io::validate_inputs;
use state_layout::section_start;
use state_manifest_codec::read_manifest;
use state_portability::validate_portability;
use state_references::{validate_boundaries, validate_references};
use state_slots::largest::state_words;
use state_slots::validate_slots;
use state_wire::offset;

// The second and last question about lengths alone, the one about the index's. By document 01 refusals 1 and 2 stand at offset 0,
// and after 2 the index is untouched.
pub const INDEX_LENGTH: Question = Question(2);

// Where a refusal stands outside: questions 1 and 2 at 0, the others from the base on.
fn offset_at(base: u64, refusal: Refusal<usize>) -> u64
    ensures { result ≡ offset_at base refusal.question.0 refusal.at }
{
    if refusal.question.0 <= INDEX_LENGTH.0 {
        0
    } else {
        offset(base, refusal.at)
    }
}

// The first twelve words in one record.
fn starts_of(index: &[u32]) -> Starts
    requires { 12 ≤ length index.now }
    ensures { result ≡ starts_of (take 12 index.now) }
{
    Starts {
        at: *index.first_chunk().unwrap(),
    }
}

// A refusal: the index is cleared but after question 2.
pub fn refused(base: u64, refusal: Refusal<usize>, index: &mut [u32]) -> Refusal<u64>
    ensures value { result ≡ outside base refusal }
    ensures index_after { index.new ≡ cond (eqb refusal.question.0 2) index.old (replicate (length index.old) 0) }
{
    if refusal.question != INDEX_LENGTH {
        index.fill(0);
    }
    refusal.question.at(offset_at(base, refusal))
}

// Acceptance: the first twelve words are the starts, and the others are cleared.
pub fn accepted(index: &mut [u32]) -> Starts
    requires { 12 ≤ length index.old }
    ensures value { result ≡ starts_of (take 12 index.old) }
    ensures index_after { index.new ≡ take 12 index.old ++ replicate (length index.old - 12) 0 }
{
    let starts = starts_of(index);
    index[12..].fill(0);
    starts
}

// Questions 11 to 32 over a manifest that was read, in document 01's order: yes to all, or the first that says no. `Tabled` is a clause of each
// call: they are lent the index to write it, and a struct that keeps the clause would have to hold at each write.
#[tactic(auto, using(questions::proofs::Chains::in_order), unfolding(questions::specs::Order::first_failing, questions::specs::Order::answers))]
fn validate_manifest(s: &[u8], revision: u32, index: &mut [u32]) -> Result<(), Question>
    requires { Tabled s.now index.old }
    ensures value { result ≡ said (first_failing target_bound_classes revision (manifest_of s.now)) }
    ensures leaves { Leaves s.now index.old index.new }
{
    validate_declarations(s, index)?;
    validate_references(s, index)?;
    validate_slots(s, index)?;
    validate_boundaries(s, index)?;
    validate_inputs(s, index)?;
    validate_portability(s, revision, index)
}

// Questions 1 to 32 on positions.
pub fn judge(s: &[u8], revision: u32, index: &mut [u32]) -> Step
    ensures { Judges s.now revision result index.old index.new }
{
    let read = read_manifest(s, index);
    let Ok(end) = read else {
        return read;
    };
    validate_manifest(s, revision, index).map_err(|question| question.at(end))?;
    Ok(end)
}

// The units of an accepted manifest, whose starts are the first words of the index. Where they are above 2^64 − 1 the index is cleared.
pub fn count_units(s: &[u8], index: &mut [u32]) -> Result<Units, Refusal<u64>>
    requires { Accepted s.now index.old }
    ensures value { result ≡ units_answer 0 (got (manifest_of s.now) 0) }
    ensures index_after { index.new ≡ cond (leb (units_of (manifest_of s.now)) (2 ^ 64 - 1)) index.old (replicate (length index.old) 0) }
{
    let words = state_words(s, section_start(index, Section::STATE_SLOTS));
    // std has no From between usize and u64; both are 64 bits wide here.
    let connectors = count_at(s, section_start(index, Section::CONNECTORS)) as u64;
    let Some(units) = words.checked_mul(4).and_then(|w| w.checked_add(connectors)) else {
        return Err(refused(0, Question(39).at(0), index));
    };
    Ok(Units { words, units })
}
