// The calls on manifests for programs in C and Rust. Parameters stand apart, as C has them: include/handover.h says what each stands for.
#![tactic(auto)]

ghost use Rattle.std.specs.Prelude.{◌≡◌, length};
ghost use Rattle.questions.specs.Portability.{target_bound_classes};
ghost use Rattle.questions.specs.Answers.{judge, decode_manifest, decoded_index};
ghost use Rattle.questions.specs.Units.{units_answer, units_index};
ghost use Rattle.verdict.specs.Answers.{compare_manifests, target_index};
ghost use Rattle.tail.specs.Answers.{decode_tail, tail_index};
ghost use Rattle.answers_c.specs.Codes.{decoded_code, decoded_words, units_code, units_words, verdict_code, verdict_words};

use answers_c::{decoded_answer, units_answer, verdict_answer};

#[unsafe(no_mangle)]
pub extern "C" fn handover_decode_manifest(
    bytes: &[u8],
    base: u64,
    revision: u32,
    index: &mut [u32],
    answer: &mut [u64; 16],
) -> u32
    ensures value { result ≡ decoded_code (decode_manifest target_bound_classes bytes.now base revision index.old) }
    ensures answer_after { answer.new ≡ decoded_words (decode_manifest target_bound_classes bytes.now base revision index.old) }
    ensures index_after { index.new ≡ decoded_index target_bound_classes bytes.now revision index.old }
{
    let (code, words) = decoded_answer(calls::decode_manifest(bytes, base, revision, index));
    *answer = words;
    code
}

#[unsafe(no_mangle)]
pub extern "C" fn handover_decode_tail(
    manifest: &[u8],
    tail: &[u8],
    base: u64,
    revision: u32,
    index: &mut [u32],
    answer: &mut [u64; 16],
) -> u32
    ensures value { result ≡ decoded_code (decode_tail target_bound_classes manifest.now tail.now base revision index.old) }
    ensures answer_after { answer.new ≡ decoded_words (decode_tail target_bound_classes manifest.now tail.now base revision index.old) }
    ensures index_after { index.new ≡ tail_index target_bound_classes manifest.now tail.now revision index.old }
{
    let decoded = calls::decode_tail(manifest, tail, base, revision, index);
    let (code, words) = decoded_answer(decoded);
    *answer = words;
    code
}

#[unsafe(no_mangle)]
pub extern "C" fn handover_units(
    bytes: &[u8],
    base: u64,
    revision: u32,
    index: &mut [u32],
    answer: &mut [u64; 16],
) -> u32
    ensures value { result ≡ units_code (units_answer base (judge target_bound_classes revision bytes.now (length index.old))) }
    ensures answer_after { answer.new ≡ units_words (units_answer base (judge target_bound_classes revision bytes.now (length index.old))) }
    ensures index_after { index.new ≡ units_index bytes.now index.old (judge target_bound_classes revision bytes.now (length index.old)) }
{
    let (code, words) = units_answer(calls::units(bytes, base, revision, index));
    *answer = words;
    code
}

#[unsafe(no_mangle)]
pub extern "C" fn handover_compare_manifests(
    snapshot: &[u8],
    base: u64,
    revision: u32,
    index: &mut [u32],
    target: &[u8],
    base2: u64,
    revision2: u32,
    index2: &mut [u32],
    answer: &mut [u64; 16],
) -> u32
    ensures value { result ≡ verdict_code (compare_manifests target_bound_classes snapshot.now base revision index.old target.now base2 revision2 index2.old) }
    ensures answer_after { answer.new ≡ verdict_words (compare_manifests target_bound_classes snapshot.now base revision index.old target.now base2 revision2 index2.old) }
    ensures index_after { index.new ≡ decoded_index target_bound_classes snapshot.now revision index.old }
    ensures index2_after { index2.new ≡ target_index target_bound_classes snapshot.now base revision index.old target.now base2 revision2 index2.old }
{
    let said = calls::compare_manifests(
        snapshot, base, revision, index, target, base2, revision2, index2,
    );
    let (code, words) = verdict_answer(said);
    *answer = words;
    code
}
