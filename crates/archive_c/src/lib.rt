// Text, strings and key order for programs in C and Rust, without the manifest reader: see include/archive.h.
#![tactic(auto)]

ghost use Rattle.std.specs.Prelude.{◌≡◌};
ghost use Rattle.utf8.specs.Valid.{valid_up_to};
ghost use Rattle.order.specs.Lex.{lex_compare, agreeing};
ghost use Rattle.state_wire.specs.Fields.{read_text};
ghost use Rattle.state_reader.specs.Read.{string_read};
ghost use Rattle.state_key_order.specs.Compare.{block_keys_compared, connector_keys_compared};
ghost use Rattle.archive_c.specs.Codes.{order_code, string_code, string_words, keys_code, keys_words};

use state_key_order::{KeyRefusal, KeysCompared};
use state_reader::StringRead;
use std::cmp::Ordering;

// Numbers for cases, here and in the two functions below: C takes results and words as include/archive.h has them. `as` where a position
// becomes a word, since std has no `From` between usize and u64: both have 64 bits.
fn code_of(order: Ordering) -> u32
    ensures { result ≡ order_code order }
{
    match order {
        Ordering::Less => 0,
        Ordering::Equal => 1,
        Ordering::Greater => 2,
    }
}

// The result for a string, and the two words of `answer`.
fn string_answer(read: StringRead) -> (u32, [u64; 2])
    ensures { (result.0 ≡ string_code read) × (result.1 ≡ string_words read) }
{
    match read {
        Ok(text) => (0, [text.start as u64, text.end as u64]),
        Err(refusal) => (u32::from(refusal.question.0), [refusal.at, 0]),
    }
}

// The result for two keys, and the two words of `answer`.
fn keys_answer(keys: KeysCompared) -> (u32, [u64; 2])
    ensures { (result.0 ≡ keys_code keys) × (result.1 ≡ keys_words keys) }
{
    match keys {
        Ok(compared) => (code_of(compared.order), [compared.agree as u64, 0]),
        Err(KeyRefusal::Left(refusal)) => (3, [u64::from(refusal.question.0), refusal.at as u64]),
        Err(KeyRefusal::Right(refusal)) => (4, [u64::from(refusal.question.0), refusal.at as u64]),
    }
}

#[unsafe(no_mangle)]
pub extern "C" fn archive_valid_up_to(bytes: &[u8]) -> usize
    ensures { result ≡ valid_up_to bytes.now }
{
    text::valid_up_to(bytes)
}

#[unsafe(no_mangle)]
pub extern "C" fn archive_read_string(
    bytes: &[u8],
    base: u64,
    limit: usize,
    answer: &mut [u64; 2],
) -> u32
    ensures { (result ≡ string_code (string_read base 0 (read_text limit bytes.now 0))) × (answer.new ≡ string_words (string_read base 0 (read_text limit bytes.now 0))) }
{
    let (code, words) = string_answer(state_reader::read_string(bytes, base, limit));
    *answer = words;
    code
}

#[unsafe(no_mangle)]
pub extern "C" fn archive_compare(a: &[u8], b: &[u8], agree: &mut u64) -> u32
    ensures { (result ≡ order_code (lex_compare a.now b.now)) × (agree.new ≡ agreeing a.now b.now) }
{
    let c = order::compare(a, b);
    *agree = c.agree as u64;
    code_of(c.order)
}

// A function for each name that include/archive.h has.
#[unsafe(no_mangle)]
pub extern "C" fn archive_compare_block_keys(
    left: &[u8],
    at: usize,
    right: &[u8],
    from: usize,
    answer: &mut [u64; 2],
) -> u32
    ensures { (result ≡ keys_code (block_keys_compared left.now at right.now from)) × (answer.new ≡ keys_words (block_keys_compared left.now at right.now from)) }
{
    let (code, words) = keys_answer(state_key_order::compare_block_keys(left, at, right, from));
    *answer = words;
    code
}

#[unsafe(no_mangle)]
pub extern "C" fn archive_compare_connector_keys(
    left: &[u8],
    at: usize,
    right: &[u8],
    from: usize,
    answer: &mut [u64; 2],
) -> u32
    ensures { (result ≡ keys_code (connector_keys_compared left.now at right.now from)) × (answer.new ≡ keys_words (connector_keys_compared left.now at right.now from)) }
{
    let (code, words) = keys_answer(state_key_order::compare_connector_keys(left, at, right, from));
    *answer = words;
    code
}
