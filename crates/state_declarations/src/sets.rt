// Questions 15 and 16: what is listed is what is named. The marks of the keys that are named are set, and then none may be left unset.
ghost use Rattle.std.specs.Prelude.{Option, ◌≡◌, List, ◌∷◌, [], ◌++◌, ℕ, length};
ghost use Rattle.std.specs.Borrow.{MutBor};
ghost use Rattle.state.specs.Bytes.{span};
ghost use Rattle.format.specs.Format.{text};
ghost use Rattle.format.specs.Manifest.{enums, connectors as connector_entries};
ghost use Rattle.format.specs.Places.{past};
ghost use Rattle.questions.specs.Sets.{gather, same_set};
ghost use Rattle.state_layout.specs.Marks.{marks_of};
ghost use Rattle.state_layout.specs.Lent.{keys_in};
ghost use Rattle.state_declarations.specs.Each.{names_in, MarksEach, Naming, ListNaming, keys_named, ports_named, class_at, classes_named, type_named};

use state::WireValueType;
use state_index::keys::{byte_at, connector_key_end, count_at};
use state_index::{ahead, position, text_end, text_part};
use state_layout::ends::{
    connector_keys_end, connector_type_at, parameter_end, parameters_at, parameters_end,
};
use state_layout::keys::{Classes, Connectors, all_marked};
use state_wire::part;

// Marks what the entry at each word names: a step is given the place to try first, and gives the one to try next.
// Marks stay a slice beside the keys: a struct of both would be lent by `&mut`, to be taken apart at each step.
// Not `try_fold`: tried, and that its closure leaves the borrowed marks as long as they were did not prove.
fn mark_each<K: Copy, F: Fn(K, &mut [u32], usize, usize) -> Option<usize>>(
    keys: K,
    marks: &mut [u32],
    words: &[u32],
    mark_entry: F,
) -> Option<usize>
    ghost named: { Naming }
    requires long { length marks.old ≡ named.count }
    requires callable { (m : MutBor (List ℕ)) (p h : ℕ) → length m.now ≡ named.count → F.pre mark_entry keys m p h }
    requires steps { (m n : MutBor (List ℕ)) (p h : ℕ) (r : Option ℕ) → F.post mark_entry keys m p h r n → MarksEach named.listed (named.names p) r m.now n.now }
    ensures { MarksEach named.listed (gather named.names words.now) result marks.old marks.new }
{
    let mut next = 0;
    for word in words {
        next = mark_entry(keys, marks, position(*word), next)?;
    }
    Some(next)
}

// The same of the counted list at a position: a step is given where its entry starts and ends.
fn mark_list<
    K: Copy,
    E: Fn(&[u8], usize) -> usize,
    F: Fn(K, &mut [u32], usize, usize, usize) -> Option<usize>,
>(
    s: &[u8],
    at: usize,
    keys: K,
    marks: &mut [u32],
    hint: usize,
    entry_end: E,
    mark_entry: F,
) -> Option<usize>
    ghost named: { ListNaming }
    requires long { length marks.old ≡ named.count }
    requires end_callable { E.IsAlwaysCallable entry_end }
    requires ends { (p r : _) → E.post entry_end s p r → r ≡ past named.entry s.now p }
    requires callable { (m : MutBor (List ℕ)) (p e h : ℕ) → length m.now ≡ named.count → F.pre mark_entry keys m p e h }
    requires steps { (m n : MutBor (List ℕ)) (p e h : ℕ) (r : Option ℕ) → F.post mark_entry keys m p e h r n → MarksEach named.listed (named.names p e) r m.now n.now }
    ensures { MarksEach named.listed (names_in named.entry s.now named.names at) result marks.old marks.new }
{
    let mut p = ahead(s, at, 4);
    let mut next = hint;
    for _ in 0..count_at(s, at) {
        let end = entry_end(s, p);
        next = mark_entry(keys, marks, p, end, next)?;
        p = end;
    }
    Some(next)
}

// Are the keys that are listed those that are named, where marking them came to `met` and began with no mark?
fn all_met(met: Option<usize>, marks: &[u32]) -> bool
    ensures { (listed names : List (List ℕ)) (old : List ℕ) → MarksEach listed names met old marks.now → old ≡ marks_of [] listed → result ≡ same_set names listed }
{
    met.is_some() && all_marked(marks)
}

// Marks the connector whose key starts and ends at positions.
#[tactic(auto, using(crate::proofs::Meeting::marked), unfolding(format::specs::Manifest::numbered))]
fn mark_key(
    connectors: Connectors,
    marks: &mut [u32],
    start: usize,
    end: usize,
    hint: usize,
) -> Option<usize>
    requires { length marks.old ≡ length connectors.words.now }
    ensures { MarksEach (keys_in connector_entries connectors.entry) (span connectors.entry.s.now start end ∷ []) result marks.old marks.new }
{
    let i = connectors.mark(marks, part(connectors.s, start, end), hint)?;
    Some(i + 1)
}

// Marks the connectors that the list of keys at a position names: one call of `mark_list`, as is `mark_parameters`, with other keys and entries.
#[tactic(auto, unfolding(crate::specs::Each::keys_named))]
fn mark_keys(connectors: Connectors, marks: &mut [u32], at: usize, hint: usize) -> Option<usize>
    requires { length marks.old ≡ length connectors.words.now }
    ensures { MarksEach (keys_in connector_entries connectors.entry) (keys_named connectors.entry.s.now at) result marks.old marks.new }
{
    mark_list(
        connectors.s,
        at,
        connectors,
        marks,
        hint,
        connector_key_end,
        mark_key,
    )
}

// Marks the connectors that are ports of the block at a position.
fn mark_ports(connectors: Connectors, marks: &mut [u32], at: usize, hint: usize) -> Option<usize>
    requires { length marks.old ≡ length connectors.words.now }
    ensures { MarksEach (keys_in connector_entries connectors.entry) (ports_named connectors.entry.s.now at) result marks.old marks.new }
{
    let s = connectors.s;
    let inputs = parameters_end(s, parameters_at(s, at));
    let next = mark_keys(connectors, marks, inputs, hint)?;
    mark_keys(connectors, marks, connector_keys_end(s, inputs), next)
}

// Question 15, with a mark for each connector.
pub(crate) fn ports_are(connectors: Connectors, blocks: &[u32], marks: &mut [u32]) -> bool
    requires { length marks.old ≡ length connectors.words.now }
    ensures { result ≡ same_set (gather (ports_named connectors.entry.s.now) blocks.now) (keys_in connector_entries connectors.entry) }
{
    marks.fill(0);
    let met = mark_each(connectors, marks, blocks, mark_ports);
    all_met(met, marks)
}

// Marks the class of the value or the value type at a position.
fn mark_class(classes: Classes, marks: &mut [u32], at: usize, hint: usize) -> Option<usize>
    requires { length marks.old ≡ length classes.words.now }
    ensures { MarksEach (keys_in enums classes.entry) (class_at classes.entry.s.now at) result marks.old marks.new }
{
    if byte_at(classes.s, at) != WireValueType::ENUM {
        return Some(hint);
    }
    let path = text_part(classes.s, ahead(classes.s, at, 1));
    classes.mark(marks, path, hint)
}

// Marks the class of the parameter that starts at a position.
fn mark_parameter(
    classes: Classes,
    marks: &mut [u32],
    start: usize,
    _end: usize,
    hint: usize,
) -> Option<usize>
    requires { length marks.old ≡ length classes.words.now }
    ensures { MarksEach (keys_in enums classes.entry) (class_at classes.entry.s.now (past text classes.entry.s.now start)) result marks.old marks.new }
{
    mark_class(classes, marks, text_end(classes.s, start), hint)
}

// Marks the classes that parameters of the block at a position name.
#[tactic(auto, unfolding(crate::specs::Each::classes_named))]
fn mark_parameters(classes: Classes, marks: &mut [u32], at: usize, hint: usize) -> Option<usize>
    requires { length marks.old ≡ length classes.words.now }
    ensures { MarksEach (keys_in enums classes.entry) (classes_named classes.entry.s.now at) result marks.old marks.new }
{
    let list = parameters_at(classes.s, at);
    mark_list(
        classes.s,
        list,
        classes,
        marks,
        hint,
        parameter_end,
        mark_parameter,
    )
}

// Marks the class of the value type of the connector at a position.
fn mark_type(classes: Classes, marks: &mut [u32], at: usize, hint: usize) -> Option<usize>
    requires { length marks.old ≡ length classes.words.now }
    ensures { MarksEach (keys_in enums classes.entry) (type_named classes.entry.s.now at) result marks.old marks.new }
{
    mark_class(classes, marks, connector_type_at(classes.s, at), hint)
}

// Marks the classes that parameters of blocks and value types of connectors name.
fn mark_classes(
    classes: Classes,
    marks: &mut [u32],
    blocks: &[u32],
    connectors: &[u32],
) -> Option<usize>
    requires { length marks.old ≡ length classes.words.now }
    ensures { MarksEach (keys_in enums classes.entry) (gather (classes_named classes.entry.s.now) blocks.now ++ gather (type_named classes.entry.s.now) connectors.now) result marks.old marks.new }
{
    mark_each(classes, marks, blocks, mark_parameters)?;
    mark_each(classes, marks, connectors, mark_type)
}

// Question 16, with a mark for each class.
// Not one function with `ports_are` over a closure: tried, and what its callers owe of such a closure did not prove.
pub(crate) fn classes_are(
    classes: Classes,
    blocks: &[u32],
    connectors: &[u32],
    marks: &mut [u32],
) -> bool
    requires { length marks.old ≡ length classes.words.now }
    ensures { result ≡ same_set (gather (classes_named classes.entry.s.now) blocks.now ++ gather (type_named classes.entry.s.now) connectors.now) (keys_in enums classes.entry) }
{
    marks.fill(0);
    let met = mark_classes(classes, marks, blocks, connectors);
    all_met(met, marks)
}
