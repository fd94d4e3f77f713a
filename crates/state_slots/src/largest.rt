// The largest end of the slots that a manifest lists.
ghost use Rattle.std.specs.Prelude.{◌≡◌, true};
ghost use Rattle.format.specs.Manifest.{counted, state_slots};
ghost use Rattle.format.specs.Values.{value_at};
ghost use Rattle.questions.specs.Sets.{all};
ghost use Rattle.questions.specs.Slots.{end_fits};
ghost use Rattle.questions.specs.Units.{word_total};

use state_index::ahead;
use state_index::keys::{block_key_end, count_at, number_at};

// The word total of the slots whose count stands at a position: the largest end.
pub fn state_words(s: &[u8], at: usize) -> u64
    requires { all end_fits (value_at (counted state_slots) s.now at) ≡ true }
    ensures { result ≡ word_total (value_at (counted state_slots) s.now at) }
{
    let count = count_at(s, at);
    let mut p = ahead(s, at, 4);
    let mut most = 0u64;
    for _ in 0..count {
        // Offset and length stand on the way to the next slot: a function for where a slot ends would look for them again.
        let offset = block_key_end(s, p);
        let length = ahead(s, offset, 8);
        most = most.max(number_at(s, offset) + number_at(s, length));
        p = ahead(s, length, 8);
    }
    most
}
