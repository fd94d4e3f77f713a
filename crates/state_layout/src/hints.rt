// Fills the hints of a table, with which `find` begins: words at the end of the room, behind all tables.
ghost use Rattle.std.specs.Prelude.{◌≡◌, IfSome, ◌+◌, ◌*◌, ◌-◌, ◌^◌, ◌≤◌, ◌<◌, length};

use super::Manifest;
use state_index::words::hints_of;
use state_index::{key_part, position};
use std::ops::Range;

// How many hints there are for each word of a table.
const HINTS: usize = 4;

// Puts a place plus 1 into the first hint that is 0, if one is.
fn put_hint(hints: &mut [u32], hint: u32) {
    let free = hints.iter().position(|h| *h == 0);
    if let Some(k) = free {
        hints[k] = hint;
    }
}

// Puts each place of a table where the key of its entry is looked for. A cast: std has no `From` for it; a place fits in 32 bits, as asked.
fn put_all(s: &[u8], section: u8, words: &[u32], hints: &mut [u32])
    requires { (4 ≤ length hints.old) × (length words.now < 2 ^ 32 - 1) }
{
    hints.fill(0);
    for (i, word) in words.iter().enumerate() {
        let first = hints_of(hints, key_part(s, section, position(*word)));
        put_hint(&mut hints[first..first + 4], i as u32 + 1);
    }
}

// Where the hints of a table stand in a room: at its end, as far from it as the table is from the start, `HINTS` for each word. None where the
// room has not so many.
pub(crate) fn hints_range(room: usize, table: &Range<usize>) -> Option<Range<usize>>
    requires { table.now.start ≤ table.now.end }
    ensures { IfSome result (λ r. (r.start + 4 * (table.now.end - table.now.start) ≡ r.end) × (r.end ≤ room)) }
{
    if room / HINTS < table.end {
        return None;
    }
    Some(room - HINTS * table.end..room - HINTS * table.start)
}

impl Manifest<'_> {
    // Fills the hints of a section's table of eight words or more, if the room has so many.
    #[tactic(auto, using(crate::proofs::Hinting::table_fits))]
    pub fn fill_hints(self, room: &mut [u32], section: u8)
        requires section_bound { section ≤ 12 }
    {
        let table = self.range(section);
        if table.end - table.start < 8 {
            return;
        }
        if let Some(hints) = hints_range(room.len(), &table) {
            put_all(self.s, section, &self.words[table], &mut room[hints]);
        }
    }
}
