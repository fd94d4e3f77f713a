// The paths of the connectors that external inputs name: those are marked, their paths sorted and compared with their neighbours.
ghost use Rattle.std.specs.Prelude.{◌≡◌, map, ◌^◌, ◌≤◌, ◌<◌, length, take};
ghost use Rattle.format.specs.Keys.{connector_key};
ghost use Rattle.format.specs.Manifest as manifest;
ghost use Rattle.format.specs.Places.{past};
ghost use Rattle.state_index.specs.Keys.{at_most};
ghost use Rattle.state_index.specs.Sort.{Sorts};
ghost use Rattle.state_index.specs.declared.SortKey.TheVariants.{Text};
ghost use Rattle.state_layout.specs.Marks.{marks_of};
ghost use Rattle.state_layout.specs.Keys.{keys_of};
ghost use Rattle.state_layout.specs.Lent.{keys_in};
ghost use Rattle.state_io.specs.Paths.{chosen, external_paths, another, count_agreeing};

use state::Section;
use state_index::keys::connector_key_end;
use state_index::words::merge_sort;
use state_index::{SortKey, key_part, position, text_part, word_at};
use state_key_order::same_bytes;
use state_layout::ends::type_at;
use state_layout::keys::Connectors;
use state_layout::same_type;

// Marks the connectors that external inputs name. The one behind that which was found is the next to try.
// No answer is wanted here: that all are known was asked by 25. A `for`: of marks that a closure changes nothing is known behind it.
fn mark_inputs(connectors: Connectors, inputs: &[u32], marks: &mut [u32])
    requires { length marks.old ≡ length connectors.words.now }
    ensures { marks.new ≡ marks_of (keys_of manifest.external_inputs connectors.entry.s.now inputs.now) (keys_in manifest.connectors connectors.entry) }
{
    marks.fill(0);
    let mut hint = 0;
    for input in inputs {
        let key = key_part(connectors.s, Section::EXTERNAL_INPUTS, position(*input));
        if let Some(i) = connectors.mark(marks, key, hint) {
            hint = i + 1;
        }
    }
}

// Puts where the paths of the marked connectors stand; the result is how many they are. That positions fit is a clause: `Keys` does not say it.
fn put_paths(connectors: Connectors, marks: &[u32], paths: &mut [u32]) -> usize
    requires s_len_bound { length connectors.s.now < 2 ^ 32 }
    requires room { length connectors.words.now ≤ length paths.old }
    ensures count { result ≤ length paths.new }
    ensures paths { take result paths.new ≡ map (past connector_key connectors.entry.s.now) (chosen marks.now connectors.entry.words.now) }
{
    // The place of the next path: it moves on only where one is put.
    let mut count = 0;
    for (connector, mark) in connectors.words.iter().zip(marks) {
        let is_marked = *mark != 0;
        if is_marked {
            // A position fits in 32 bits, as asked.
            paths[count] = connector_key_end(connectors.s, position(*connector)) as u32;
            count += 1;
        }
    }
    count
}

// Where the paths stand of the connectors that the external inputs name, in order: put into room for one path of each connector, by a mark of each.
#[tactic(auto, using(crate::proofs::Gathered::gathered))]
pub(crate) fn external_paths<'i>(
    connectors: Connectors,
    inputs: &[u32],
    marks: &mut [u32],
    paths: &'i mut [u32],
) -> &'i [u32]
    requires s_len_bound { length connectors.s.now < 2 ^ 32 }
    requires marks { length marks.old ≡ length connectors.words.now }
    requires room { length connectors.words.now ≤ length paths.old }
    ensures { Sorts (at_most Text connectors.entry.s.now) (external_paths connectors.entry.s.now connectors.entry.words.now inputs.now) result.now }
{
    mark_inputs(connectors, inputs, marks);
    let count = put_paths(connectors, marks, paths);
    let paths = &mut paths[..count];
    // The marks were read, and are room now: there are no fewer than paths.
    merge_sort(connectors.s, SortKey::Text, paths, marks);
    paths
}

// Whether the paths at a and at b differ; none where they are one path with two types.
#[tactic(auto, unfolding(crate::specs::Paths::agree))]
fn another(s: &[u8], a: usize, b: usize) -> Option<bool>
    ensures { result ≡ another s.now a b }
{
    let other = !same_bytes(text_part(s, a), text_part(s, b));
    (other || same_type(s, type_at(s, a), s, type_at(s, b))).then_some(other)
}

// How many different paths there are, as neighbours tell; none where neighbours of one path have two types. By `try_fold` it did not prove that
// the count fits.
pub(crate) fn count_paths(s: &[u8], paths: &[u32]) -> Option<usize>
    ensures { result ≡ count_agreeing s.now paths.now }
{
    let mut count = paths.len().min(1);
    for pair in paths.windows(2) {
        count += usize::from(another(s, word_at(pair, 0), word_at(pair, 1))?);
    }
    Some(count)
}
