// What is asked of each entry by itself: that the connectors it names are known, and of the right direction. A yes is the place in the
// connectors' table that the next entry is to try first.
ghost use Rattle.std.specs.Prelude.{◌≡◌, is_some};
ghost use Rattle.format.specs.Lists.{same};
ghost use Rattle.format.specs.Manifest.{numbered, connectors};
ghost use Rattle.format.specs.Places.{key_at};
ghost use Rattle.state_layout.specs.Lent.{keys_in};
ghost use Rattle.state_references.specs.Known.{of_way, known_at, directed_at, joins_at, drives_at, source_at};

use state::{Section, WireDir};
use state_index::keys::{block_key_end, byte_at, connector_key_end};
use state_index::{key_part, text_end};
use state_key_order::same_bytes;
use state_layout::keys::Connectors;

// Have the entries of a section at two positions the same key?
pub(crate) fn same_key(s: &[u8], section: u8, a: usize, b: usize) -> bool
    ensures { result ≡ same (key_at (numbered section) s.now a) (key_at (numbered section) s.now b) }
{
    same_bytes(key_part(s, section, a), key_part(s, section, b))
}

// Looks for the connector whose key stands at a position, and gives the place after it: the one to try next, as keys ascend.
#[tactic(auto, using(crate::proofs::Telling::found_known), unfolding(crate::specs::Known::known_at, format::specs::Manifest::numbered))]
fn find_connector(known: Connectors, at: usize, hint: usize) -> Option<usize>
    ensures { is_some result ≡ known_at known.entry.s.now (keys_in connectors known.entry) at }
{
    let i = known.find(key_part(known.s, Section::CONNECTORS, at), hint)?;
    Some(i + 1)
}

// The same, where the key is of this direction.
#[tactic(auto, unfolding(crate::specs::Known::directed_at))]
fn find_directed(known: Connectors, way: u8, at: usize, hint: usize) -> Option<usize>
    ensures { is_some result ≡ directed_at known.entry.s.now (keys_in connectors known.entry) way at }
{
    if !is_of_way(known.s, way, at) {
        return None;
    }
    find_connector(known, at, hint)
}

// Is the connector key at a position of a direction?
#[tactic(auto, unfolding(crate::specs::Known::of_way))]
pub(crate) fn is_of_way(s: &[u8], way: u8, at: usize) -> bool
    ensures { result ≡ of_way s.now way at }
{
    byte_at(s, block_key_end(s, at)) == way
}

// Question 17 of a connection.
#[tactic(auto, unfolding(crate::specs::Known::joins_at))]
pub(crate) fn joins(known: Connectors, at: usize, hint: usize) -> Option<usize>
    ensures { is_some result ≡ joins_at known.entry.s.now (keys_in connectors known.entry) at }
{
    let sink = connector_key_end(known.s, at);
    find_directed(known, WireDir::IN, sink, hint)?;
    find_directed(known, WireDir::OUT, at, hint)
}

// Question 20 of a driver.
#[tactic(auto, unfolding(crate::specs::Known::drives_at))]
pub(crate) fn drives(known: Connectors, at: usize, hint: usize) -> Option<usize>
    ensures { is_some result ≡ drives_at known.entry.s.now (keys_in connectors known.entry) at }
{
    let driver = connector_key_end(known.s, at);
    find_connector(known, driver, hint)?;
    find_connector(known, at, hint)
}

// Question 26 of a boundary output: its source.
#[tactic(auto, unfolding(crate::specs::Known::source_at))]
pub(crate) fn has_source(known: Connectors, at: usize, hint: usize) -> Option<usize>
    ensures { is_some result ≡ source_at known.entry.s.now (keys_in connectors known.entry) at }
{
    find_directed(known, WireDir::OUT, text_end(known.s, at), hint)
}
