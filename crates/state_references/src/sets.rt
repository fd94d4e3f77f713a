// What is asked of the entries together: that keys are all different, or those of a section, each once.
ghost use Rattle.std.specs.Prelude.{◌≡◌, true, ◌&&◌, map, ◌+◌, ◌≤◌, length};
ghost use Rattle.format.specs.Lists.{all_different};
ghost use Rattle.format.specs.Manifest.{numbered};
ghost use Rattle.questions.specs.Sets.{all, all_in};
ghost use Rattle.state_index.specs.Keys.{text_at};
ghost use Rattle.state_layout.specs.Keys.{keys_of};
ghost use Rattle.state_layout.specs.Lent.{keys_in};
ghost use Rattle.state_layout.specs.Marks.{is_set};

use state_index::{key_part, position, words};
use state_layout::keys::Keys;

// Are the keys that stand at words known and all different? Marks those that are met; stops at one that is unknown or was met before.
#[tactic(auto, using(crate::proofs::Meeting::meets_start))]
pub(crate) fn all_new<const SECTION: u8>(
    keys: Keys<SECTION>,
    marks: &mut [u32],
    listed: &[u32],
) -> bool
    requires { length marks.old ≡ length keys.words.now }
    ensures answer { result ≡ (all_in (keys_of (numbered SECTION) keys.entry.s.now listed.now) (keys_in (numbered SECTION) keys.entry) && all_different (keys_of (numbered SECTION) keys.entry.s.now listed.now)) }
    ensures marked { result ≡ true → all is_set marks.new ≡ all_in (keys_in (numbered SECTION) keys.entry) (keys_of (numbered SECTION) keys.entry.s.now listed.now) }
{
    marks.fill(0);
    // A `try_fold` as in lib.rt did not prove: of marks that its closure changes nothing is known behind it.
    let mut hint = 0;
    for word in listed {
        let key = key_part(keys.s, SECTION, position(*word));
        let Some(i) = keys.mark_new(marks, key, hint) else {
            return false;
        };
        hint = i + 1;
    }
    true
}

// Are the texts at words all different? The room has twice as many words: a copy of these, and as many behind it for `all_distinct`.
pub(crate) fn texts_differ(s: &[u8], names: &[u32], room: &mut [u32]) -> bool
    requires { length names.now + length names.now ≤ length room.old }
    ensures { result ≡ all_different (map (text_at s.now) names.now) }
{
    let n = names.len();
    // Not `copy_from_slice`, nor a loop that copies and does nothing else: these become a call of `memmove` or `memcpy`, which the library for C
    // would then need from outside. So each turn clears a word of the room behind, too.
    for i in 0..n {
        room[i] = names[i];
        room[n + i] = 0;
    }
    words::all_distinct(s, room, n)
}
