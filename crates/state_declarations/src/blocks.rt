// Questions 12 to 14, block by block.
ghost use Rattle.std.specs.Prelude.{◌≡◌, ◌&&◌, ℕ, map};
ghost use Rattle.state.specs.Bytes.{AreBytes};
ghost use Rattle.state.specs.Outcome.{said};
ghost use Rattle.state_wire.specs.Fields.{max_snapshot_bytes};
ghost use Rattle.format.specs.Admits.{All};
ghost use Rattle.format.specs.Manifest.{entry, blocks as block_entries};
ghost use Rattle.format.specs.Places.{past};
ghost use Rattle.format.specs.Values.{value_at, Well};
ghost use Rattle.questions.specs.Sets.{first};
ghost use Rattle.questions.specs.Declarations.{kind_holds, params_hold, block_answer};
ghost use Rattle.state_layout.specs.Lent.{classes_in};
ghost use Rattle.state_declarations.specs.Each.{each_in, Asked, inputs_at, outputs_at, has_class, is_port, are_ports};

use state::{BlockKind, Question, WireDir};
use state_index::keys::{block_key_end, byte_at, connector_key_end, count_at, number_at};
use state_index::{ahead, position, text_end};
use state_key_order::same_bytes;
use state_layout::ends::{
    block_kind_at, connector_keys_end, parameter_end, parameters_at, parameters_end,
};
use state_layout::keys::{Classes, validate_value_enum};
use state_wire::part;

// Question 12 of the block at a position. Two steps lead from the kind to the revision and the state length: a function for each would be no plainer.
#[tactic(auto, using(crate::proofs::Parts::kind_agrees, crate::proofs::Parts::kind_differs))]
fn kind_holds(s: &[u8], at: usize) -> bool
    ensures { result ≡ kind_holds (value_at (entry block_entries) s.now at) }
{
    let kind = block_kind_at(s, at);
    let revision = ahead(s, kind, 1);
    let length = ahead(s, revision, 4);
    let stateful = byte_at(s, kind) == BlockKind::STATEFUL;
    (count_at(s, revision) != 0) == stateful && (number_at(s, length) != 0) == stateful
}

// Does each entry of the counted list at a position pass? It is asked by its place and by where it starts.
// Not `try_fold`: it would hand the position on in an `Option`, from a closure in a closure.
fn each_holds<K: Copy, E: Fn(&[u8], usize) -> usize, H: Fn(K, usize, usize) -> bool>(
    s: &[u8],
    at: usize,
    of: K,
    entry_end: E,
    holds: H,
) -> bool
    ghost asked: { Asked }
    requires end_callable { E.IsAlwaysCallable entry_end }
    requires ends { (p r : _) → E.post entry_end s p r → r ≡ past asked.entry s.now p }
    requires callable { H.IsAlwaysCallable holds }
    requires holds { (i p : ℕ) (r : _) → H.post holds of i p r → r ≡ asked.test i p }
    ensures { result ≡ each_in asked.entry s.now asked.test at }
{
    let mut p = ahead(s, at, 4);
    for i in 0..count_at(s, at) {
        if !holds(of, i, p) {
            return false;
        }
        p = entry_end(s, p);
    }
    true
}

// Question 13 of the parameter at a position.
fn parameter_holds(classes: Classes, _place: usize, at: usize) -> bool
    ensures { result ≡ has_class classes.entry.s.now (classes_in classes.entry) at }
{
    validate_value_enum(classes, classes.s, text_end(classes.s, at))
}

// Question 13 of the block at a position.
#[tactic(auto, using(crate::proofs::Parts::params_passed))]
fn parameters_hold(classes: Classes, at: usize) -> bool
    ensures { result ≡ params_hold (classes_in classes.entry) (value_at (entry block_entries) classes.entry.s.now at) }
{
    each_holds(
        classes.s,
        parameters_at(classes.s, at),
        classes,
        parameter_end,
        parameter_holds,
    )
}

// The ports of one direction of the block at a position.
#[derive(Clone, Copy)]
struct Side<'a> {
    s: &'a [u8],
    block: usize,
    way: u8,
}

// Question 14 of the port at a position: is it of that block and direction, and has it this index?
#[tactic(auto, using(crate::proofs::Parts::port_owner, crate::proofs::Parts::port_way, crate::proofs::Parts::port_place))]
fn port_holds(side: Side, place: usize, at: usize) -> bool
    ensures { result ≡ is_port side.entry.s.now side.entry.block side.entry.way place at }
{
    let s = side.s;
    let end = block_key_end(s, at);
    if !same_bytes(
        part(s, at, end),
        part(s, side.block, block_key_end(s, side.block)),
    ) {
        return false;
    }
    byte_at(s, end) == side.way && count_at(s, ahead(s, end, 1)) == place
}

// Question 14 of the ports that the list at a position has.
#[tactic(auto, unfolding(crate::specs::Each::are_ports))]
fn side_holds(s: &[u8], block: usize, way: u8, at: usize) -> bool
    ensures { result ≡ are_ports s.now block way at }
{
    each_holds(s, at, Side { s, block, way }, connector_key_end, port_holds)
}

// Question 14 of the block at a position.
fn ports_hold(s: &[u8], at: usize) -> bool
    ensures { result ≡ (are_ports s.now at 0 (inputs_at s.now at) && are_ports s.now at 1 (outputs_at s.now at)) }
{
    let inputs = parameters_end(s, parameters_at(s, at));
    let outputs = connector_keys_end(s, inputs);
    side_holds(s, at, WireDir::IN, inputs) && side_holds(s, at, WireDir::OUT, outputs)
}

// Questions 12 to 14 of the block at a position.
#[tactic(auto, using(crate::proofs::Holds::block))]
fn block_answer(classes: Classes, at: usize) -> Result<(), Question>
    requires are_bytes { AreBytes classes.s.now }
    requires well { Well max_snapshot_bytes (entry block_entries) classes.s.now at }
    ensures { result ≡ said (block_answer (classes_in classes.entry) (value_at (entry block_entries) classes.entry.s.now at)) }
{
    if !kind_holds(classes.s, at) {
        return Err(Question(12));
    }
    if !parameters_hold(classes, at) {
        return Err(Question(13));
    }
    if !ports_hold(classes.s, at) {
        return Err(Question(14));
    }
    Ok(())
}

// Questions 12 to 14 of all blocks, or the first that says no. Not `try_for_each`: tried, and what it owes of each call did not prove.
pub(crate) fn blocks_answer(classes: Classes, blocks: &[u32]) -> Result<(), Question>
    requires are_bytes { AreBytes classes.s.now }
    requires all { All (Well max_snapshot_bytes (entry block_entries) classes.s.now) blocks.now }
    ensures { result ≡ said (first (map (block_answer (classes_in classes.entry)) (map (value_at (entry block_entries) classes.entry.s.now) blocks.now))) }
{
    for word in blocks {
        block_answer(classes, position(*word))?;
    }
    Ok(())
}
