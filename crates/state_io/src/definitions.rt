// Questions 28 to 30, definition by definition.
ghost use Rattle.std.specs.Prelude.{◌≡◌, map};
ghost use Rattle.state.specs.Outcome.{said};
ghost use Rattle.format.specs.Manifest.{value_type, value, optional};
ghost use Rattle.format.specs.Fields.{given};
ghost use Rattle.format.specs.Values.{value_at};
ghost use Rattle.questions.specs.Sets.{first};
ghost use Rattle.questions.specs.Inputs.{bound_answer};
ghost use Rattle.state_layout.specs.Lent.{classes_in};
ghost use Rattle.state_io.specs.Paths.{definition_at, answer_among, Sought};

use state::{Question, Section, WireValueType};
use state_index::keys::byte_at;
use state_index::words::find;
use state_index::{ahead, position, text_end, text_part, word_at};
use state_layout::ends::{bound_end, type_at, type_end};
use state_layout::keys::{Classes, validate_value_enum};
use state_layout::same_type;

// A bound that may be left out, of the type at t: questions 29 and 30.
// Not one function with `value_answer` of state_codec: both ask for the type and the class, but of other bytes and under other numbers.
#[tactic(auto, using(crate::proofs::Bounded::bound_answers))]
fn bound_answer(classes: Classes, t: usize, at: usize) -> Result<(), Question>
    ensures { result ≡ said (first (map (bound_answer (classes_in classes.entry) (value_at value_type classes.entry.s.now t)) (given value (value_at (optional value) classes.entry.s.now at)))) }
{
    let s = classes.s;
    if byte_at(s, at) != 1 {
        return Ok(());
    }
    let value = ahead(s, at, 1);
    let tag = byte_at(s, value);
    let is_unordered = tag == WireValueType::BOOLEAN || tag == WireValueType::STRING;
    if is_unordered || !same_type(s, value, s, t) {
        return Err(Question(29));
    }
    if !validate_value_enum(classes, s, value) {
        return Err(Question(30));
    }
    Ok(())
}

// One definition: questions 28 to 30. The external paths are sorted.
fn definition_answer(
    classes: Classes,
    paths: &[u32],
    at: usize,
    hint: usize,
) -> Result<(), Question>
    requires { Sought classes.s.now paths.now }
    ensures { result ≡ said (answer_among classes.entry.s.now (classes_in classes.entry) paths.now (definition_at classes.entry.s.now at)) }
{
    let s = classes.s;
    let key = text_part(s, at);
    // The section says only how keys are ranked: a path is a text, as a definition's key is.
    let i = find::<{ Section::INPUT_DEFINITIONS }>(s, paths, &[], key, hint).ok_or(Question(28))?;
    let t = text_end(s, at);
    if !same_type(s, t, s, type_at(s, word_at(paths, i))) {
        return Err(Question(28));
    }
    let minimum = type_end(s, t);
    let maximum = bound_end(s, minimum);
    bound_answer(classes, t, minimum)?;
    bound_answer(classes, t, maximum)
}

// All definitions. One path after the other is tried first, since definitions mostly stand in the order of their paths.
pub(crate) fn definitions_answer(
    classes: Classes,
    paths: &[u32],
    definitions: &[u32],
) -> Result<(), Question>
    requires { Sought classes.s.now paths.now }
    ensures { result ≡ said (first (map (λ p. answer_among classes.entry.s.now (classes_in classes.entry) paths.now (definition_at classes.entry.s.now p)) definitions.now)) }
{
    definitions.iter().enumerate().try_for_each(|(hint, at)| {
        definition_answer(classes, paths, position(*at), hint)
    })
}
