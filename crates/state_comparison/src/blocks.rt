// Section 3 of two accepted manifests, block by block and field by field.
ghost use Rattle.std.specs.Prelude.{◌≡◌, ◌+◌};
ghost use Rattle.format.specs.Keys.{block_key};
ghost use Rattle.format.specs.Format.{number, tag, text, ◌then◌};
ghost use Rattle.format.specs.Manifest.{value, connector_keys, block_head, entry, counted, blocks};
ghost use Rattle.format.specs.Places.{past};
ghost use Rattle.format.specs.Values.{value_at};
ghost use Rattle.verdict.specs.Verdict.{compatible, head_verdict, param_verdict, ports_verdict, listwise, block_verdict};
ghost use Rattle.state_comparison.specs.Comparing.{Both, Moved, ports, ports_at};

use super::{Sides, compare_counts, compare_lists, compare_part, enter, in_section};
use state::{Difference, Part, Section, Verdict};
use state_index::keys::{block_key_end, connector_key_end};
use state_index::{ahead, text_end};
use state_layout::ends::value_end;

// A difference of block i, at inner place j.
fn in_block(part: u8, i: usize, j: usize) -> Difference
    ensures { result ≡ record { section = 3; part = part; entry = i; inner = j } }
{
    Difference {
        inner: j,
        ..in_section(Section::BLOCKS, part, i)
    }
}

// Where a block's kind ends. Not `number_end::<1>`: its contract names a tag's format, not a number's.
#[tactic(auto, unfolding(format::specs::Places::past))]
fn kind_end(s: &[u8], at: usize) -> usize
    ensures { result ≡ past (tag 2) s.now at }
{
    ahead(s, at, 1)
}

// Where a number of W bytes ends.
#[tactic(auto, unfolding(format::specs::Places::past))]
fn number_end<const W: usize>(s: &[u8], at: usize) -> usize
    ensures { result ≡ past (number W) s.now at }
{
    ahead(s, at, W)
}

// The key, class, kind, revision and state length of block i; the places move behind them.
fn compare_head(s: &[u8], t: &[u8], at: &mut Sides, i: usize) -> Verdict
    requires { Both (entry blocks) s.now t.now at.old.snapshot at.old.target }
    ensures verdict { result ≡ head_verdict i (value_at (entry blocks) s.now at.old.snapshot) (value_at (entry blocks) t.now at.old.target) }
    ensures moved { result ≡ compatible → Moved (block_key then block_head) s.now t.now at.old at.new }
{
    compare_part(s, t, at, block_key_end, in_block(Part::KEY, i, 0))?;
    compare_part(s, t, at, text_end, in_block(Part::CLASS, i, 0))?;
    compare_part(s, t, at, kind_end, in_block(Part::KIND, i, 0))?;
    compare_part(s, t, at, number_end::<4>, in_block(Part::REVISION, i, 0))?;
    compare_part(
        s,
        t,
        at,
        number_end::<8>,
        in_block(Part::STATE_LENGTH, i, 0),
    )
}

// The name and the value of parameter j of block i; the places move behind them.
fn compare_parameter(s: &[u8], t: &[u8], at: &mut Sides, i: usize, j: usize) -> Verdict
    requires { Both (text then value) s.now t.now at.old.snapshot at.old.target }
    ensures verdict { result ≡ param_verdict i j (value_at (text then value) s.now at.old.snapshot) (value_at (text then value) t.now at.old.target) }
    ensures moved { result ≡ compatible → Moved (text then value) s.now t.now at.old at.new }
{
    compare_part(s, t, at, text_end, in_block(Part::PARAMETER_NAME, i, j))?;
    compare_part(s, t, at, value_end, in_block(Part::PARAMETER_VALUE, i, j))
}

// The inputs of block i, or its outputs, by their part and their count's, which document 01 numbers next. The places move behind them.
#[tactic(auto, using(crate::proofs::Fields::ports_are), unfolding(format::specs::Manifest::connector_keys, format::specs::Places::past))]
fn compare_port_bindings(
    s: &[u8],
    t: &[u8],
    at: &mut Sides,
    part: u8,
    count: u8,
    i: usize,
) -> Verdict
    requires both { Both (counted ports) s.now t.now at.old.snapshot at.old.target }
    requires count_next { count ≡ part + 1 }
    ensures verdict { result ≡ ports_verdict part i (value_at connector_keys s.now at.old.snapshot) (value_at connector_keys t.now at.old.target) }
    ensures moved { result ≡ compatible → Moved connector_keys s.now t.now at.old at.new }
{
    compare_lists(
        s,
        t,
        at,
        connector_key_end,
        |j| in_block(part, i, j),
        |j| in_block(count, i, j),
    )
}

// The inputs of block i, then its outputs. The places move behind them.
fn compare_ports(s: &[u8], t: &[u8], at: &mut Sides, i: usize) -> Verdict
    requires { Both (connector_keys then connector_keys) s.now t.now at.old.snapshot at.old.target }
    ensures verdict { result ≡ ports_at i s.now t.now at.old.snapshot at.old.target }
    ensures moved { result ≡ compatible → Moved (connector_keys then connector_keys) s.now t.now at.old at.new }
{
    compare_port_bindings(s, t, at, Part::INPUT, Part::INPUT_COUNT, i)?;
    compare_port_bindings(s, t, at, Part::OUTPUT, Part::OUTPUT_COUNT, i)
}

// Section 3, whose counts stand at two places. Blocks and parameters are left together at the first difference.
pub(crate) fn compare_blocks(s: &[u8], t: &[u8], at: &mut Sides) -> Verdict
    requires { Both (counted blocks) s.now t.now at.old.snapshot at.old.target }
    ensures { result ≡ (listwise 3 blocks block_verdict).compare (value_at (counted blocks) s.now at.old.snapshot) (value_at (counted blocks) t.now at.old.target) }
{
    let counts = enter(s, t, at);
    // Counted by hand: the form that document 01 names is left with the verdict, and a `for` has no value.
    let mut i = 0;
    'blocks: loop {
        if i == counts.shorter() {
            break 'blocks compare_counts(counts, in_block(Part::ENTRY_COUNT, i, 0));
        }
        if let Err(difference) = compare_head(s, t, at, i) {
            break 'blocks Err(difference);
        }
        let parameters = enter(s, t, at);
        for j in 0..parameters.shorter() {
            if let Err(difference) = compare_parameter(s, t, at, i, j) {
                break 'blocks Err(difference);
            }
        }
        let place = parameters.shorter();
        let count = in_block(Part::PARAMETER_COUNT, i, place);
        if let Err(difference) = compare_counts(parameters, count) {
            break 'blocks Err(difference);
        }
        if let Err(difference) = compare_ports(s, t, at, i) {
            break 'blocks Err(difference);
        }
        i += 1;
    }
}
