// Whether two templates can ever meet, each given as the bytes of one operation, codes 1 to 4.
#![tactic(auto)]

ghost use Rattle.std.specs.Prelude.{◌≡◌, ◌≤◌, ◌<◌};
ghost use Rattle.basis.specs.Sizes.{most_fields};
ghost use Rattle.model.specs.Meeting.{fields_meet, meet, can_meet};
ghost use Rattle.matching.specs.Meaning.{template_is};
ghost use Rattle.matching.specs.SearchLaws.{field_at};
ghost use Rattle.meeting.specs.Meets.{answer_is};

use alone::{read_alone, refers_to};
use bindings::{no_vars, template_of};
use matching::Template;
use values::at_most;

// Why two templates are not held against each other: one is not the bytes of one such operation, or asks for a variable's value.
#[derive(Clone, Copy)]
enum Unmet {
    Malformed,
    Refers,
}

// What the call answers beside 1 and 0.
const MALFORMED: u64 = 6;

const REFERS: u64 = 19;

// One value meets field i of both: of one kind and, where two ranges are given, in both.
#[tactic(auto, using(std::proofs::lemmas::Grind::common_steps), unfolding(model::specs::Meeting::fields_meet, model::specs::Meeting::overlap, basis::specs::Choice::provided))]
fn fields_meet(a: Template, b: Template, i: usize) -> bool
    requires { i < most_fields }
    ensures { result ≡ fields_meet (field_at a i) (field_at b i) }
{
    a.kinds[i] == b.kinds[i]
        && (!a.given[i]
            || !b.given[i]
            || at_most(a.kinds[i], a.lowest[i], b.highest[i])
                && at_most(a.kinds[i], b.lowest[i], a.highest[i]))
}

// One tuple meets both: the same space, as many fields, and a value for each.
fn templates_meet(a: Template, b: Template) -> bool
    requires { (a.count ≤ most_fields) × (b.count ≤ most_fields) }
    ensures { result ≡ meet (template_is a) (template_is b) }
{
    if a.space != b.space || a.count != b.count {
        return false;
    }
    for i in 0..a.count {
        if !fields_meet(a, b, i) {
            return false;
        }
    }
    true
}

// Whether one tuple exists that both match; before that, either can be malformed, then either can ask for a variable.
fn meets(first: &[u8], second: &[u8]) -> Result<bool, Unmet>
    ensures { answer_is result ≡ can_meet first.now second.now }
{
    let a = read_alone(first).ok_or(Unmet::Malformed)?;
    let b = read_alone(second).ok_or(Unmet::Malformed)?;
    if refers_to(a) || refers_to(b) {
        return Err(Unmet::Refers);
    }
    Ok(templates_meet(template_of(a, no_vars()), template_of(b, no_vars())))
}

// "1 exactly if one tuple exists that both match, else .. 0"; 6 of either, then 19 of either.
pub fn can_meet(first: &[u8], second: &[u8]) -> u64
    ensures { result ≡ can_meet first.now second.now }
{
    match meets(first, second) {
        Ok(met) => u64::from(met),
        Err(Unmet::Malformed) => MALFORMED,
        Err(Unmet::Refers) => REFERS,
    }
}
