// Sections 2 to 12, each read into its table: the words of the lent index that say where its entries start.
ghost use Rattle.std.specs.Prelude.{◌≡◌, ◌≤◌, [], ◌+◌, length, ℕ, List};
ghost use denote.Ref.{MutBor};
ghost use Rattle.state_sections.specs.Readers.{ReadsAs, RestAs};
ghost use Rattle.state_wire.specs.Fields.{max_snapshot_bytes};
ghost use Rattle.format.specs.Format.{scan, scan_entries, text, done, free, ◌then◌};
ghost use Rattle.format.specs.Manifest.{members, block_rest, numbered, counted, entry};
ghost use Rattle.format.specs.Places.{count_at, starts};
ghost use Rattle.state_sections.specs.Tables.{Space, Lists};

use crate::entries::{
    read_block_head, read_connection, read_connector_rest, read_input_rest, read_slot_rest,
};
use crate::layouts::{Asked, layout_of};
use crate::lists::{in_order, read_connector_keys, read_parameters};
use state::{Question, Section, Step};
use state_index::words::all_distinct;
use state_key_order::{read_block_key, read_connector_key};
use state_wire::{part, read_count, step_of, string};

// The texts of a class's members, as many as `names` has words for where they start.
fn read_names(s: &[u8], at: usize, names: &mut [u32]) -> Step
    requires short { length s.now ≤ max_snapshot_bytes }
    requires here { at ≤ length s.now }
    ensures { Lists result (scan_entries max_snapshot_bytes free text done s.now (length names.old) at []) (starts max_snapshot_bytes (text then done) s.now (length names.old) at) names.new }
{
    let mut p = at;
    for word in names.iter_mut() {
        let name = string(s, p);
        let Ok(e) = name else {
            return name;
        };
        // Positions fit in 32 bits, since a manifest has 64 MiB at most; std has no `From` for the cast, here and in `walk_with`.
        *word = p as u32;
        p = e;
    }
    Ok(p)
}

// A class's members, all different. `Space` stays a clause, here and below: it is of the words behind each entry, another slice each time.
#[tactic(auto, using(crate::proofs::Reading::reads), unfolding(format::specs::Manifest::members))]
fn read_members(s: &[u8], at: usize, scratch: &mut [u32]) -> Step
    requires { Space s.now scratch.old at }
    ensures { result ≡ scan max_snapshot_bytes members s.now at }
{
    let count = read_count::<4>(s, at, 4);
    let Ok((n, first)) = count else {
        return step_of(count);
    };
    // std has no `From` between `u64` and `usize`, here and in `walk_with`.
    let words = n as usize;
    let names = read_names(s, first, &mut scratch[..words]);
    let Ok(last) = names else {
        return names;
    };
    if all_distinct(s, scratch, words) {
        Ok(last)
    } else {
        Err(Question(8).at(last))
    }
}

// A block's fields.
#[tactic(auto, using(crate::proofs::Reading::reads), unfolding(format::specs::Manifest::block_rest))]
fn read_block_rest(s: &[u8], at: usize) -> Step
    ensures { result ≡ scan max_snapshot_bytes block_rest s.now at }
{
    let head = read_block_head(s, at);
    let Ok(p) = head else {
        return head;
    };
    let params = read_parameters(s, p);
    let Ok(i) = params else {
        return params;
    };
    let inputs = read_connector_keys(s, i);
    let Ok(o) = inputs else {
        return inputs;
    };
    read_connector_keys(s, o)
}

// A key that is a text. `string` promises `read_text`, and the walk asks for `scan`.
#[tactic(auto, using(crate::proofs::Reading::reads))]
fn path(s: &[u8], at: usize) -> Step
    ensures { result ≡ scan max_snapshot_bytes text s.now at }
{
    string(s, at)
}

// The rest of an entry that is a key alone.
#[tactic(auto, using(crate::proofs::Reading::reads))]
fn nothing(_s: &[u8], at: usize) -> Step
    ensures { result ≡ scan max_snapshot_bytes done _s.now at }
{
    Ok(at)
}

// A section by the readers of a key and of the rest of an entry: where the entries start goes into the first words of the index, and
// those behind are scratch. It stands beside `read_ascending`, whose callers keep no starts and have no index: one walk for both would take
// one more closure, which keeps a start or does nothing, and say of it what it does.
fn walk_with<K: Fn(&[u8], usize) -> Step, R: Fn(&[u8], usize, &mut [u32]) -> Step>(
    s: &[u8],
    section: u8,
    at: usize,
    read_key: K,
    read_rest: R,
    index: &mut [u32],
) -> Step
    requires key_callable { K.IsAlwaysCallable read_key }
    requires key { ReadsAs (K.post read_key s) (numbered section).key s.now }
    requires rest_callable { (k : ℕ) (words : MutBor (List ℕ)) → Space s.now words.now k → R.pre read_rest s k words }
    requires rest { RestAs (R.post read_rest s) (numbered section).rest s.now }
    requires room { Space s.now index.old at }
    ensures { Lists result (scan max_snapshot_bytes (counted (numbered section)) s.now at) (starts max_snapshot_bytes (entry (numbered section)) s.now (count_at s.now at) (at + 4)) index.new }
{
    let layout = layout_of(section);
    let count = read_count::<4>(s, at, layout.least);
    let Ok((n, first)) = count else {
        return step_of(count);
    };
    let mut last = None;
    let mut p = first;
    for w in 0..n as usize {
        let key = read_key(s, p);
        let Ok(k) = key else {
            return key;
        };
        let ranked = part(s, p + layout.skip, k);
        let ordered = in_order(layout.asked, last, ranked);
        if !ordered && layout.asked == Asked::AfterKey {
            return Err(Question(9).at(k));
        }
        let rest = read_rest(s, k, &mut index[w..]);
        let Ok(e) = rest else {
            return rest;
        };
        if !ordered {
            return Err(Question(9).at(e));
        }
        last = Some(ranked);
        index[w] = p as u32;
        p = e;
    }
    Ok(p)
}

// The same where no rest needs scratch. It says the clauses of `walk_with` again; without it each of its callers would write the closure.
fn walk<K: Fn(&[u8], usize) -> Step, R: Fn(&[u8], usize) -> Step>(
    s: &[u8],
    section: u8,
    at: usize,
    read_key: K,
    read_rest: R,
    index: &mut [u32],
) -> Step
    requires key_callable { K.IsAlwaysCallable read_key }
    requires key { ReadsAs (K.post read_key s) (numbered section).key s.now }
    requires rest_callable { R.IsAlwaysCallable read_rest }
    requires rest { ReadsAs (R.post read_rest s) (numbered section).rest s.now }
    requires room { Space s.now index.old at }
    ensures { Lists result (scan max_snapshot_bytes (counted (numbered section)) s.now at) (starts max_snapshot_bytes (entry (numbered section)) s.now (count_at s.now at) (at + 4)) index.new }
{
    walk_with(s, section, at, read_key, |s, p, _| read_rest(s, p), index)
}

// A section, read into the first words of the index; those behind are scratch.
#[tactic(auto, using(crate::proofs::Numbers::numbered_found), unfolding(format::specs::Manifest::numbered))]
pub fn read_list(s: &[u8], section: u8, at: usize, index: &mut [u32]) -> Step
    requires { Space s.now index.old at }
    ensures { Lists result (scan max_snapshot_bytes (counted (numbered section)) s.now at) (starts max_snapshot_bytes (entry (numbered section)) s.now (count_at s.now at) (at + 4)) index.new }
{
    match section {
        ..=Section::ENUMS => walk_with(s, section, at, path, read_members, index),
        Section::BLOCKS => walk(s, section, at, read_block_key, read_block_rest, index),
        Section::CONNECTORS => walk(
            s,
            section,
            at,
            read_connector_key,
            read_connector_rest,
            index,
        ),
        Section::CONNECTIONS => walk(s, section, at, read_connection, nothing, index),
        Section::SCHEDULE => walk(s, section, at, read_block_key, nothing, index),
        Section::CONNECTOR_ORDER | Section::EXTERNAL_INPUTS => walk(
            s,
            section,
            at,
            read_connector_key,
            nothing,
            index,
        ),
        Section::DRIVER_OF => walk(
            s,
            section,
            at,
            read_connector_key,
            read_connector_key,
            index,
        ),
        Section::STATE_SLOTS => walk(s, section, at, read_block_key, read_slot_rest, index),
        Section::BOUNDARY_OUTPUTS => walk(s, section, at, path, read_connector_key, index),
        _ => walk(s, section, at, path, read_input_rest, index),
    }
}
