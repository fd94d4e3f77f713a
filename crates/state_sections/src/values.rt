// Values, their types, and what may be left out.
#![tactic(auto, using(crate::proofs::Reading::reads), unfolding(format::specs::Manifest::value_type, format::specs::Manifest::value, format::specs::Manifest::portability))]

ghost use Rattle.std.specs.Prelude.{◌≡◌};
ghost use Rattle.state_wire.specs.Fields.{max_snapshot_bytes};
ghost use Rattle.format.specs.Format.{Fmt, scan, text, number, ◌then◌};
ghost use Rattle.format.specs.Manifest.{value, value_type, optional, portability};
ghost use Rattle.state_sections.specs.Readers.{ReadsAs};

use state::{Portability, Step, WireValueType};
use state_wire::{read_tag, step_of, string, take};

pub fn read_value_type(s: &[u8], at: usize) -> Step
    ensures { result ≡ scan max_snapshot_bytes value_type s.now at }
{
    let tag = read_tag(s, at, WireValueType::KNOWN);
    let Ok((t, next)) = tag else {
        return step_of(tag);
    };
    if t == WireValueType::ENUM {
        return string(s, next);
    }
    Ok(next)
}

// An enum's class path and ordinal.
fn read_ordinal(s: &[u8], at: usize) -> Step
    ensures { result ≡ scan max_snapshot_bytes (text then number 4) s.now at }
{
    let class = string(s, at);
    let Ok(ordinal) = class else {
        return class;
    };
    take(s, ordinal, 4)
}

pub fn read_value(s: &[u8], at: usize) -> Step
    ensures { result ≡ scan max_snapshot_bytes value s.now at }
{
    let tag = read_tag(s, at, WireValueType::KNOWN);
    let Ok((t, next)) = tag else {
        return step_of(tag);
    };
    match t {
        WireValueType::REAL | WireValueType::INTEGER => take(s, next, 8),
        WireValueType::BOOLEAN => step_of(read_tag(s, next, 2)),
        WireValueType::STRING => string(s, next),
        _ => read_ordinal(s, next),
    }
}

// What may be left out: a Boolean byte, and what it says is there.
fn read_optional<F: Fn(&[u8], usize) -> Step>(s: &[u8], at: usize, read: F) -> Step
    ghost fmt: { Fmt }
    requires callable { F.IsAlwaysCallable read }
    requires reads { ReadsAs (F.post read s) fmt s.now }
    ensures { result ≡ scan max_snapshot_bytes (optional fmt) s.now at }
{
    let tag = read_tag(s, at, 2);
    let Ok((there, next)) = tag else {
        return step_of(tag);
    };
    if there == 0 {
        return Ok(next);
    }
    read(s, next)
}

// A unit or a quantity.
#[tactic(auto, unfolding(format::specs::Format::scan, format::specs::Format::read))]
pub fn read_optional_text(s: &[u8], at: usize) -> Step
    ensures { result ≡ scan max_snapshot_bytes (optional text) s.now at }
{
    read_optional(s, at, string)
}

// A minimum or a maximum.
pub fn read_bound(s: &[u8], at: usize) -> Step
    ensures { result ≡ scan max_snapshot_bytes (optional value) s.now at }
{
    read_optional(s, at, read_value)
}

// Section 1: portable, or the names of an architecture and a system. Its tags have names, so it is no `read_optional`.
pub fn read_portability(s: &[u8], at: usize) -> Step
    ensures { result ≡ scan max_snapshot_bytes portability s.now at }
{
    let tag = read_tag(s, at, Portability::KNOWN);
    let Ok((t, next)) = tag else {
        return step_of(tag);
    };
    if t == Portability::PORTABLE {
        return Ok(next);
    }
    let arch = string(s, next);
    let Ok(os) = arch else {
        return arch;
    };
    string(s, os)
}
