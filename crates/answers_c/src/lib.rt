// The answers of the calls as C has them: a number, and the words of `answer`; include/handover.h says what each stands for.
#![tactic(auto)]

ghost use Rattle.std.specs.Prelude.{◌≡◌, ◌≤◌, ◌-◌, ◌∷◌, ◌++◌, replicate};
ghost use Rattle.answers_c.specs.Codes.{decoded_code, decoded_words, units_code, units_words, verdict_code, verdict_words};

use state::{Decoded, Refusal, SideRefusal, Starts, Units, Verdict};

// The first words of an answer; the others are 0.
fn words_from<const N: usize>(first: [u64; N]) -> [u64; 16]
    requires { N ≤ 16 }
    ensures { result ≡ first.entry ++ replicate (16 - N) 0 }
{
    let mut words = [0; 16];
    words[..N].copy_from_slice(&first);
    words
}

fn starts_words(starts: Starts) -> [u64; 16]
    ensures { result ≡ starts.at ++ replicate 4 0 }
{
    words_from(starts.at.map(u64::from))
}

// A refusal's number, and its words: the offset, and which side it is of. The C interface has 0 for the snapshot's, and where there is no side.
fn refused(refusal: Refusal<u64>, side: u64) -> (u32, [u64; 16])
    ensures { (result.0 ≡ refusal.question.0) × (result.1 ≡ refusal.at ∷ side ∷ replicate 14 0) }
{
    (
        u32::from(refusal.question.0),
        words_from([refusal.at, side]),
    )
}

// No `From`, here and in the two functions below: neither `Result` nor C's pair is a type of this crate, as an impl would need.
pub fn decoded_answer(decoded: Decoded) -> (u32, [u64; 16])
    ensures { (result.0 ≡ decoded_code decoded) × (result.1 ≡ decoded_words decoded) }
{
    match decoded {
        Ok(starts) => (0, starts_words(starts)),
        Err(refusal) => refused(refusal, 0),
    }
}

pub fn units_answer(units: Result<Units, Refusal<u64>>) -> (u32, [u64; 16])
    ensures { (result.0 ≡ units_code units) × (result.1 ≡ units_words units) }
{
    match units {
        Ok(Units { words, units }) => (0, words_from([words, units])),
        Err(refusal) => refused(refusal, 0),
    }
}

pub fn verdict_answer(verdict: Result<Verdict, SideRefusal>) -> (u32, [u64; 16])
    ensures { (result.0 ≡ verdict_code verdict) × (result.1 ≡ verdict_words verdict) }
{
    match verdict {
        Ok(Ok(())) => (0, [0; 16]),
        // std has no From between usize and u64; both are 64 bits wide here.
        Ok(Err(d)) => (
            0,
            words_from([
                u64::from(d.section),
                u64::from(d.part),
                d.entry as u64,
                d.inner as u64,
            ]),
        ),
        Err(SideRefusal::Snapshot(refusal)) => refused(refusal, 0),
        Err(SideRefusal::Target(refusal)) => refused(refusal, 1),
    }
}
