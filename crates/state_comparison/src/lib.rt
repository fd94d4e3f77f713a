// Two accepted manifests side by side: where they first differ.
#![tactic(auto)]

mod blocks;

ghost use Rattle.std.specs.Prelude.{◌≡◌, false, cond, ◌+◌, ◌-◌, ◌≤◌, min, length, get_or, eqb};
ghost use Rattle.state.specs.Bytes.{span};
ghost use Rattle.format.specs.Lists.{same};
ghost use Rattle.format.specs.Manifest.{entry, counted};
ghost use Rattle.format.specs.Places.{number_at, past};
ghost use Rattle.format.specs.Values.{value_at};
ghost use Rattle.verdict.specs.Verdict.{compatible, verdict};
ghost use Rattle.state_layout.specs.Tables.{manifest_of};
ghost use Rattle.state_comparison.specs.Comparing.{Both, Lists, Tells, lists_verdict, Moved, comparison, Stands};

use blocks::compare_blocks;
use state::{Difference, Part, Section, Starts, Verdict};
use state_index::ahead;
use state_index::keys::count_at;
use state_key_order::same_bytes;
use state_layout::ends::{class_end, connector_end, definition_end};
use state_layout::section_start;
use state_wire::part;

// A place, or a count, of the snapshot's manifest and one of the target's. Bytes stand beside it as `s` and `t`: they are shared and
// the places move, and a struct of all would be borrowed whole where a part is compared.
#[derive(Clone, Copy)]
pub(crate) struct Sides {
    pub snapshot: usize,
    pub target: usize,
}

impl Sides {
    pub(crate) fn shorter(self) -> usize
        ensures { result ≡ min self.snapshot self.target }
    {
        self.snapshot.min(self.target)
    }
}

// What the parts from two places up to where `end` says come to: nothing, or this difference. The places move there.
pub(crate) fn compare_part<E: Fn(&[u8], usize) -> usize>(
    s: &[u8],
    t: &[u8],
    at: &mut Sides,
    end: E,
    difference: Difference,
) -> Verdict
    requires { E.IsAlwaysCallable end }
    ensures snapshot { E.post end s.entry at.old.snapshot at.new.snapshot }
    ensures target { E.post end t.entry at.old.target at.new.target }
    ensures verdict { result ≡ cond (same (span s.now at.old.snapshot at.new.snapshot) (span t.now at.old.target at.new.target)) compatible (Err difference) }
{
    let from = *at;
    at.snapshot = end(s, from.snapshot);
    at.target = end(t, from.target);
    let left = part(s, from.snapshot, at.snapshot);
    let right = part(t, from.target, at.target);
    if same_bytes(left, right) {
        Ok(())
    } else {
        Err(difference)
    }
}

// The counts of two lists; the places move to their first entries.
pub(crate) fn enter(s: &[u8], t: &[u8], at: &mut Sides) -> Sides
    ensures counts { (result.snapshot ≡ number_at 4 s.now at.old.snapshot) × (result.target ≡ number_at 4 t.now at.old.target) }
    ensures places { (at.new.snapshot ≡ min (at.old.snapshot + 4) (length s.now)) × (at.new.target ≡ min (at.old.target + 4) (length t.now)) }
{
    let counts = Sides {
        snapshot: count_at(s, at.snapshot),
        target: count_at(t, at.target),
    };
    at.snapshot = ahead(s, at.snapshot, 4);
    at.target = ahead(t, at.target, 4);
    counts
}

// What two counts come to.
pub(crate) fn compare_counts(counts: Sides, difference: Difference) -> Verdict
    ensures { result ≡ cond (eqb counts.snapshot counts.target) compatible (Err difference) }
{
    if counts.snapshot == counts.target {
        Ok(())
    } else {
        Err(difference)
    }
}

// Two counted lists, entry by entry and then their counts: `end` says where an entry ends, the others which difference it is, or the counts,
// at a place of the list. The places move behind the lists.
pub(crate) fn compare_lists<
    E: Fn(&[u8], usize) -> usize,
    D: Fn(usize) -> Difference,
    C: Fn(usize) -> Difference,
>(s: &[u8], t: &[u8], at: &mut Sides, end: E, at_entry: D, at_count: C) -> Verdict
    ghost lists: { Lists }
    requires end_called { E.IsAlwaysCallable end }
    requires entry_called { D.IsAlwaysCallable at_entry }
    requires count_called { C.IsAlwaysCallable at_count }
    requires both { Both (counted lists.list) s.now t.now at.old.snapshot at.old.target }
    requires tells { Tells lists s.now t.now (E.post end s) (E.post end t) (D.post at_entry) (C.post at_count) }
    ensures verdict { result ≡ lists_verdict lists (value_at (counted lists.list) s.now at.old.snapshot) (value_at (counted lists.list) t.now at.old.target) }
    ensures moved { result ≡ compatible → Moved (counted lists.list) s.now t.now at.old at.new }
{
    let counts = enter(s, t, at);
    for i in 0..counts.shorter() {
        compare_part(s, t, at, &end, at_entry(i))?;
    }
    compare_counts(counts, at_count(counts.shorter()))
}

// A difference of a section, in an entry or in the count of them.
pub(crate) fn in_section(section: u8, part: u8, entry: usize) -> Difference
    ensures { result ≡ record { section = section; part = part; entry = entry; inner = 0 } }
{
    Difference {
        section,
        part,
        entry,
        inner: 0,
    }
}

// A section whose bytes differ, at two places. The blocks are walked, and sections 2, 4 and 12 compared entry by entry.
#[tactic(auto, unfolding(crate::specs::Comparing::comparison))]
fn compare_section(s: &[u8], t: &[u8], section: u8, mut at: Sides) -> Verdict
    requires le_section { (1 ≤ section) × (section ≤ 12) }
    requires both { Both (comparison section).format s.now t.now at.snapshot at.target }
    requires apart { same (span s.now at.snapshot (past (comparison section).format s.now at.snapshot)) (span t.now at.target (past (comparison section).format t.now at.target)) ≡ false }
    ensures { result ≡ (comparison section).compare (value_at (comparison section).format s.now at.snapshot) (value_at (comparison section).format t.now at.target) }
{
    let at_entry = |i| in_section(section, Part::WHOLE, i);
    let at_count = |i| in_section(section, Part::ENTRY_COUNT, i);
    match section {
        Section::BLOCKS => compare_blocks(s, t, &mut at),
        Section::ENUMS => compare_lists(s, t, &mut at, class_end, at_entry, at_count),
        Section::CONNECTORS => compare_lists(s, t, &mut at, connector_end, at_entry, at_count),
        Section::INPUT_DEFINITIONS => compare_lists(
            s,
            t,
            &mut at,
            definition_end,
            at_entry,
            at_count,
        ),
        _ => Err(in_section(section, Part::WHOLE, 0)),
    }
}

// The bytes of a section: up to the next one, or to the end.
fn section_part(s: &[u8], starts: Starts, section: u8) -> &[u8]
    requires { (1 ≤ section) × ((section ≤ 12) × (length starts.at ≡ 12)) }
    ensures { result.now ≡ span s.now (get_or starts.at (section - 1) 0) (get_or starts.at section (length s.now)) }
{
    let end = match section {
        Section::INPUT_DEFINITIONS => s.len(),
        _ => section_start(&starts.at, section + 1),
    };
    part(s, section_start(&starts.at, section), end)
}

// Two accepted manifests. Sections are compared as bytes first, and walked only where they differ.
pub fn compare_sections(s: &[u8], t: &[u8], snapshot: Starts, target: Starts) -> Verdict
    requires { Stands s.now snapshot.at × Stands t.now target.at }
    ensures { result ≡ verdict (manifest_of s.now) (manifest_of t.now) }
{
    for k in Section::PORTABILITY..=Section::INPUT_DEFINITIONS {
        let left = section_part(s, snapshot, k);
        let right = section_part(t, target, k);
        let apart = !same_bytes(left, right);
        if apart {
            let at = Sides {
                snapshot: section_start(&snapshot.at, k),
                target: section_start(&target.at, k),
            };
            return compare_section(s, t, k, at);
        }
    }
    Ok(())
}
