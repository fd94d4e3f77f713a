// The calls, and nothing else: none asks anything of what it is given, and each gives its answer and every word that it was lent.
#![tactic(auto)]

ghost use Rattle.std.specs.Prelude.{◌≡◌, length};
ghost use Rattle.questions.specs.Portability.{target_bound_classes};
ghost use Rattle.questions.specs.Answers.{judge, decode_manifest, decoded_index};
ghost use Rattle.questions.specs.Units.{units_answer, units_index};
ghost use Rattle.tail.specs.Answers.{decode_tail, tail_index};
ghost use Rattle.verdict.specs.Answers.{compare_manifests, target_index};
ghost use Rattle.verdict.specs.Demand3.{VerdictDemand, WordsDemand};

use manifest::{accepted, count_units, judge, refused};
use state::{Decoded, Question, Refusal, SideRefusal, Units, Verdict};
use state_codec::{read_tail, too_long};
use state_comparison::compare_sections;
use state_wire::offset;

// Reads a manifest and asks all questions about it. An index of fewer than n ÷ 2 + 16 words is question 2.
pub fn decode_manifest(bytes: &[u8], base: u64, revision: u32, index: &mut [u32]) -> Decoded
    ensures value { result ≡ decode_manifest target_bound_classes bytes.now base revision index.old }
    ensures index_after { index.new ≡ decoded_index target_bound_classes bytes.now revision index.old }
{
    // A match, since both ends change the index.
    match judge(bytes, revision, index) {
        Ok(_) => Ok(accepted(index)),
        Err(refusal) => Err(refused(base, refusal, index)),
    }
}

// Reads a manifest and the tail behind it and asks all questions about them. The index is the manifest's, and left as `decode_manifest` leaves it.
pub fn decode_tail(
    bytes: &[u8],
    tail: &[u8],
    base: u64,
    revision: u32,
    index: &mut [u32],
) -> Decoded
    ensures value { result ≡ decode_tail target_bound_classes bytes.now tail.now base revision index.old }
    ensures index_after { index.new ≡ tail_index target_bound_classes bytes.now tail.now revision index.old }
{
    if too_long(bytes.len(), tail.len()) {
        return Err(refused(base, Question(1).at(0), index));
    }
    if let Err(refusal) = judge(bytes, revision, index) {
        return Err(refused(base, refusal, index));
    }
    match read_tail(bytes, index, tail) {
        Ok(_) => Ok(accepted(index)),
        Err(refusal) => Err(refused(offset(base, bytes.len()), refusal, index)),
    }
}

// The word total and the units of a manifest, or its refusal. The index is left as `decode_manifest` leaves it, but cleared after 39.
pub fn units(
    bytes: &[u8],
    base: u64,
    revision: u32,
    index: &mut [u32],
) -> Result<Units, Refusal<u64>>
    ensures value { result ≡ units_answer base (judge target_bound_classes revision bytes.now (length index.old)) }
    ensures index_after { index.new ≡ units_index bytes.now index.old (judge target_bound_classes revision bytes.now (length index.old)) }
    ensures words_demand { WordsDemand target_bound_classes bytes.now revision index.old result }
{
    decode_manifest(bytes, base, revision, index)?;
    count_units(bytes, index)
}

// The verdict on a snapshot's manifest and the target's, each with its own base, revision and index; or the refusal of the first that is refused.
pub fn compare_manifests(
    snapshot: &[u8],
    base: u64,
    revision: u32,
    index: &mut [u32],
    target: &[u8],
    base2: u64,
    revision2: u32,
    index2: &mut [u32],
) -> Result<Verdict, SideRefusal>
    ensures value { result ≡ compare_manifests target_bound_classes snapshot.now base revision index.old target.now base2 revision2 index2.old }
    ensures index_after { index.new ≡ decoded_index target_bound_classes snapshot.now revision index.old }
    ensures index2_after { index2.new ≡ target_index target_bound_classes snapshot.now base revision index.old target.now base2 revision2 index2.old }
    ensures verdict_demand { VerdictDemand target_bound_classes snapshot.now base revision index.old target.now base2 revision2 index2.old result }
{
    let starts = decode_manifest(snapshot, base, revision, index).map_err(SideRefusal::Snapshot)?;
    let starts2 = decode_manifest(target, base2, revision2, index2).map_err(SideRefusal::Target)?;
    Ok(compare_sections(snapshot, target, starts, starts2))
}
