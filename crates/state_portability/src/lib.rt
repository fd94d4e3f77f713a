// Whether a manifest is bound to a target: questions 31 and 32.
#![tactic(auto)]

ghost use Rattle.std.specs.Prelude.{◌≡◌, ◌<◌, [], get_or};
ghost use Rattle.state.specs.Outcome.{said};
ghost use Rattle.format.specs.Lists.{same, is_in};
ghost use Rattle.format.specs.Fields.{portability_of};
ghost use Rattle.questions.specs.Sets.{first};
ghost use Rattle.questions.specs.Portability.{target_bound_classes, tag_holds, target_holds, portability_holds};
ghost use Rattle.state_layout.specs.Tables.{Tabled, manifest_of};
ghost use Rattle.state_portability.specs.Bound.{some_bound_at};

use state::{Portability, Question, Section};
use state_index::keys::{block_key_end, byte_at};
use state_index::{ahead, position, text_end, text_part};
use state_layout::Manifest;

// The revision under which question 31 is asked.
pub const EXECUTION_ABI_REVISION: u32 = 2;

// How long the names of `TARGET_BOUND_CLASSES` are.
const TARGET_BOUND_LENGTHS: [usize; 15] = [
    38, 46, 37, 14, 14, 14, 15, 13, 13, 13, 15, 13, 21, 13, 24,
];

// The engine's classes that depend on the target, each in a row as long as the longest: the project prescribes a constant array of byte arrays,
// and the lengths stand beside it.
const TARGET_BOUND_CLASSES: [[u8; 46]; 15] = [
    *b"CDL.Psychrometrics.DewPoint_TDryBulPhi\0\0\0\0\0\0\0\0",
    *b"CDL.Psychrometrics.SpecificEnthalpy_TDryBulPhi",
    *b"CDL.Psychrometrics.WetBulb_TDryBulPhi\0\0\0\0\0\0\0\0\0",
    *b"CDL.Reals.Acos\0\0\0\0\0\0\0\0\0\0\0\0\0\0\0\0\0\0\0\0\0\0\0\0\0\0\0\0\0\0\0\0",
    *b"CDL.Reals.Asin\0\0\0\0\0\0\0\0\0\0\0\0\0\0\0\0\0\0\0\0\0\0\0\0\0\0\0\0\0\0\0\0",
    *b"CDL.Reals.Atan\0\0\0\0\0\0\0\0\0\0\0\0\0\0\0\0\0\0\0\0\0\0\0\0\0\0\0\0\0\0\0\0",
    *b"CDL.Reals.Atan2\0\0\0\0\0\0\0\0\0\0\0\0\0\0\0\0\0\0\0\0\0\0\0\0\0\0\0\0\0\0\0",
    *b"CDL.Reals.Cos\0\0\0\0\0\0\0\0\0\0\0\0\0\0\0\0\0\0\0\0\0\0\0\0\0\0\0\0\0\0\0\0\0",
    *b"CDL.Reals.Exp\0\0\0\0\0\0\0\0\0\0\0\0\0\0\0\0\0\0\0\0\0\0\0\0\0\0\0\0\0\0\0\0\0",
    *b"CDL.Reals.Log\0\0\0\0\0\0\0\0\0\0\0\0\0\0\0\0\0\0\0\0\0\0\0\0\0\0\0\0\0\0\0\0\0",
    *b"CDL.Reals.Log10\0\0\0\0\0\0\0\0\0\0\0\0\0\0\0\0\0\0\0\0\0\0\0\0\0\0\0\0\0\0\0",
    *b"CDL.Reals.Sin\0\0\0\0\0\0\0\0\0\0\0\0\0\0\0\0\0\0\0\0\0\0\0\0\0\0\0\0\0\0\0\0\0",
    *b"CDL.Reals.Sources.Sin\0\0\0\0\0\0\0\0\0\0\0\0\0\0\0\0\0\0\0\0\0\0\0\0\0",
    *b"CDL.Reals.Tan\0\0\0\0\0\0\0\0\0\0\0\0\0\0\0\0\0\0\0\0\0\0\0\0\0\0\0\0\0\0\0\0\0",
    *b"CDL.Utilities.SunRiseSet\0\0\0\0\0\0\0\0\0\0\0\0\0\0\0\0\0\0\0\0\0\0",
];

// Is the class the row's? Only where length and last byte are its own are the bytes compared: the names start alike, and the last byte tells most
// of one length apart.
fn is_row(class: &[u8], row: usize) -> bool
    requires { row < 15 }
    ensures { result ≡ same class.now (get_or target_bound_classes row []) }
{
    let n = TARGET_BOUND_LENGTHS[row];
    let bytes = &TARGET_BOUND_CLASSES[row];
    class.len() == n && class[n - 1] == bytes[n - 1] && class == &bytes[..n]
}

// Is the class one of those that depend on the target? By the row's number and not by `zip`: that a row and a length are one name's is known of
// their place alone.
pub fn requires_target(class: &[u8]) -> bool
    ensures { result ≡ is_in class.now target_bound_classes }
{
    (0..15).any(|row| is_row(class, row))
}

// Does the class of some block that the words list depend on the target?
fn some_requires_target(s: &[u8], blocks: &[u32]) -> bool
    ensures { result ≡ some_bound_at target_bound_classes s.now blocks.now }
{
    blocks.iter().any(|block| requires_target(text_part(s, block_key_end(s, position(*block)))))
}

// Question 31.
#[tactic(auto, using(crate::proofs::Bounding::tag_unasked, crate::proofs::Bounding::tag_asked))]
fn tag_holds(m: Manifest, revision: u32) -> bool
    ensures { result ≡ tag_holds target_bound_classes revision (manifest_of m.entry.s.now) }
{
    let asked = revision == EXECUTION_ABI_REVISION;
    let tagged = byte_at(m.s, 0) == Portability::TARGET_BOUND;
    !asked || some_requires_target(m.s, m.table(Section::BLOCKS)) == tagged
}

// Question 32.
#[tactic(auto, using(crate::proofs::Bounding::target_none, crate::proofs::Bounding::arch_none, crate::proofs::Bounding::os_there))]
fn target_holds(s: &[u8]) -> bool
    ensures { result ≡ target_holds (portability_of (manifest_of s.now)) }
{
    let arch = ahead(s, 0, 1);
    byte_at(s, 0) != Portability::TARGET_BOUND
        || !text_part(s, arch).is_empty() && !text_part(s, text_end(s, arch)).is_empty()
}

// Questions 31 and 32: yes, or the first that says no.
#[tactic(auto, using(crate::proofs::Bounding::tag_no, crate::proofs::Bounding::target_no, crate::proofs::Bounding::both_yes, state_layout::proofs::Indexed::laid_of))]
pub fn validate_portability(s: &[u8], revision: u32, index: &[u32]) -> Result<(), Question>
    requires { Tabled s.now index.now }
    ensures { result ≡ said (first (portability_holds target_bound_classes revision (manifest_of s.now))) }
{
    if !tag_holds(Manifest { s, words: index }, revision) {
        return Err(Question(31));
    }
    if !target_holds(s) {
        return Err(Question(32));
    }
    Ok(())
}
