// Question 9, and lists that keep no starts: a count, then the entries.
#![tactic(auto, using(crate::proofs::Reading::reads))]

ghost use Rattle.std.specs.Prelude.{◌≡◌, true, option_map};
ghost use Rattle.state_wire.specs.Fields.{max_snapshot_bytes};
ghost use Rattle.format.specs.Format.{above, scan};
ghost use Rattle.format.specs.Manifest.{Section, counted, params, connector_keys};
ghost use Rattle.state_sections.specs.Tables.{prior};
ghost use Rattle.state_sections.specs.Layouts.{layout_of};
ghost use Rattle.state_sections.specs.Readers.{ReadsAs};

use crate::layouts::Asked;
use crate::values::read_value;
use state::{Question, Step};
use state_key_order::{precedes, read_connector_key};
use state_wire::{part, read_count, step_of, string};

// Question 9: whether a key is above the one before it, if there is one.
pub fn key_above(last: Option<&[u8]>, key: &[u8]) -> bool
    ensures { result ≡ above key.now (prior (option_map (λ k. k.now) last.entry)) }
{
    last.is_none_or(|before| precedes(before, key))
}

// The same of a list where it may not be asked; then the answer is yes.
pub(crate) fn in_order(asked: Asked, last: Option<&[u8]>, key: &[u8]) -> bool
    ensures asked { ¬ (asked ≡ Asked.Never) → result ≡ above key.now (prior (option_map (λ k. k.now) last.entry)) }
    ensures unasked { asked ≡ Asked.Never → result ≡ true }
{
    asked == Asked::Never || key_above(last, key)
}

// A list of entries whose keys ascend, by their bytes from `skip` on.
pub fn read_ascending<K: Fn(&[u8], usize) -> Step, R: Fn(&[u8], usize) -> Step>(
    s: &[u8],
    at: usize,
    least: u64,
    skip: usize,
    read_key: K,
    read_rest: R,
) -> Step
    ghost e: { Section }
    requires laid { layout_of e ≡ record { least = least; skip = skip; asked = Asked.AfterEntry } }
    requires key_callable { K.IsAlwaysCallable read_key }
    requires key { ReadsAs (K.post read_key s) e.key s.now }
    requires rest_callable { R.IsAlwaysCallable read_rest }
    requires rest { ReadsAs (R.post read_rest s) e.rest s.now }
    ensures { result ≡ scan max_snapshot_bytes (counted e) s.now at }
{
    let count = read_count::<4>(s, at, least);
    let Ok((n, first)) = count else {
        return step_of(count);
    };
    let mut last = None;
    let mut p = first;
    for _ in 0..n {
        let key = read_key(s, p);
        let Ok(k) = key else {
            return key;
        };
        let rest = read_rest(s, k);
        let Ok(e) = rest else {
            return rest;
        };
        let ranked = part(s, p + skip, k);
        if !key_above(last, ranked) {
            return Err(Question(9).at(e));
        }
        last = Some(ranked);
        p = e;
    }
    Ok(p)
}

// A block's parameters.
#[tactic(auto, unfolding(format::specs::Format::scan, format::specs::Format::read, format::specs::Manifest::params))]
pub fn read_parameters(s: &[u8], at: usize) -> Step
    ensures { result ≡ scan max_snapshot_bytes params s.now at }
{
    read_ascending(s, at, 6, 4, string, read_value)
}

// A block's inputs or outputs. Their order is free and nothing follows a key, so they are not read by `read_ascending`.
#[tactic(auto, using(crate::proofs::Reading::reads), unfolding(format::specs::Manifest::connector_keys))]
pub fn read_connector_keys(s: &[u8], at: usize) -> Step
    ensures { result ≡ scan max_snapshot_bytes connector_keys s.now at }
{
    let count = read_count::<4>(s, at, 10);
    let Ok((n, first)) = count else {
        return step_of(count);
    };
    (0..n).try_fold(first, |p, _| read_connector_key(s, p))
}
