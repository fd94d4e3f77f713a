// Reads a manifest's twelve sections, questions 1 to 10, and keeps where its entries start in the lent index.
#![tactic(auto)]

ghost use Rattle.std.specs.Prelude.{◌++◌};
ghost use Rattle.state_wire.specs.Fields.{max_snapshot_bytes};
ghost use Rattle.format.specs.Format.{scan};
ghost use Rattle.format.specs.Manifest.{manifest};
ghost use Rattle.format.specs.Places.{manifest_starts, manifest_entries};
ghost use Rattle.state_manifest_codec.specs.Filled.{Room, Fills};
ghost use Rattle.state_manifest_codec.specs.Reads.{Reads};

use state::{MAX_SNAPSHOT_BYTES, Question, Section, Step};
use state_sections::tables::read_list;
use state_sections::values::read_portability;
use state_wire::number_at;

// The twelve sections: where they start goes into the first twelve words, where their entries start into the words after these.
fn read_sections(s: &[u8], index: &mut [u32]) -> Step
    requires { Room s.now index.old 0 12 }
    ensures { Fills result (scan max_snapshot_bytes manifest s.now 0) (manifest_starts max_snapshot_bytes s.now ++ manifest_entries max_snapshot_bytes s.now) 0 index.old index.new }
{
    let first = read_portability(s, 0);
    let Ok(p) = first else {
        return first;
    };
    index[0] = 0;
    let mut at = p;
    let mut word = 12;
    for section in Section::ENUMS..=Section::INPUT_DEFINITIONS {
        // Positions fit in 32 bits, since a manifest has 64 MiB at most. std has no `From` for this cast, nor for the count's below.
        index[usize::from(section) - 1] = at as u32;
        let list = read_list(s, section, at, &mut index[word..]);
        let Ok(next) = list else {
            return list;
        };
        word += number_at::<4>(s, at) as usize;
        at = next;
    }
    Ok(at)
}

// Questions 1 to 10 of a manifest, with an index of any length.
pub fn read_manifest(s: &[u8], index: &mut [u32]) -> Step
    ensures { Reads s.now result index.old index.new }
{
    if MAX_SNAPSHOT_BYTES < s.len() {
        return Err(Question(1).at(0));
    }
    let words = s.len() / 2 + 16;
    if index.len() < words {
        return Err(Question(2).at(0));
    }
    let sections = read_sections(s, &mut index[..words]);
    let Ok(end) = sections else {
        return sections;
    };
    if end == s.len() {
        Ok(end)
    } else {
        Err(Question(10).at(end))
    }
}
