// Rule 1 on the tuples of a state: which of them a template matches, and the oldest one.
#![tactic(auto)]

ghost use Rattle.std.specs.Prelude.{◌≡◌, false, ◌+◌, ◌≤◌, length};
ghost use Rattle.basis.specs.Lists.{first};
ghost use Rattle.basis.specs.Sizes.{most_tuples, most_fields, tuple_size, tuples_size};
ghost use Rattle.model.specs.Matching.{first_mismatch, is_match};
ghost use Rattle.tuples.specs.Section.{tuple_at, tuples_of};
ghost use Rattle.sections.specs.Rows.{HasRows};
ghost use Rattle.matching.specs.Meaning.{template_is, mismatch_is, found_is};

// What a template asks for: the space, and of each of `count` fields the kind and, where one is given, the range of values; that of one value has its
// bits twice.
#[derive(Clone, Copy)]
pub struct Template {
    pub space: u16,
    pub count: usize,
    pub kinds: [u8; words::MOST_FIELDS],
    pub given: [bool; words::MOST_FIELDS],
    pub lowest: [u32; words::MOST_FIELDS],
    pub highest: [u32; words::MOST_FIELDS],
}

// Which condition of document 003, section 5.1, fails first: 1 the number of fields, 2 the kinds, 3 the values.
#[derive(Clone, Copy)]
pub enum Mismatch {
    Count,
    Kinds,
    Values,
}

// The conditions of 5.1 in their order, on a template, the μ of the page, and the tuple at index i, its τ. (Both loops end at the sixth field and are
// left at the template's count, which lets the compiler write out their turns.)
pub fn first_mismatch(tuples: &[u8], i: usize, template: Template) -> Result<(), Mismatch>
    requires { HasRows tuple_size tuples.now (i + 1) × (template.count ≤ most_fields) }
    ensures { mismatch_is result ≡ first_mismatch (template_is template) (tuple_at tuples.now i) }
{
    // "μ and τ have the same number of fields."
    if tuples::field_count(tuples, i) != template.count {
        return Err(Mismatch::Count);
    }
    // "Corresponding fields have the same types."
    'kinds: for k in 0..words::MOST_FIELDS {
        if k == template.count {
            break 'kinds;
        }
        if tuples::kind(tuples, i, k) != template.kinds[k] {
            return Err(Mismatch::Kinds);
        }
    }
    // "Each pair of corresponding fields F_μ and F_τ match as follows":
    'values: for f in 0..words::MOST_FIELDS {
        if f == template.count {
            break 'values;
        }
        // "If both F_μ and F_τ are actuals, they match if and only if their respective values are equal"; a range "matches a value from lowest to highest,
        // both included" (L4), so that one of equal ends asks for the value itself; "If F_μ is a formal and F_τ is an actual, they match".
        if template.given[f] {
            let n = tuples::bits(tuples, i, f);
            let lowest = template.lowest[f];
            let highest = template.highest[f];
            if lowest == highest {
                if n != lowest {
                    return Err(Mismatch::Values);
                }
            } else if !values::is_within(template.kinds[f], lowest, highest, n) {
                return Err(Mismatch::Values);
            }
        }
    }
    Ok(())
}

// A quick test before the conditions: no match where the space or a value that is given exactly differs. (It is written into each search, and the
// conditions are called for what it lets through.)
fn may_match(tuples: &[u8], i: usize, template: Template) -> bool
    requires { HasRows tuple_size tuples.now (i + 1) × (template.count ≤ most_fields) }
    ensures { result ≡ false → is_match (template_is template) (tuple_at tuples.now i) ≡ false }
{
    let space = tuples::space(tuples, i);
    if space != template.space {
        return false;
    }
    'values: for e in 0..words::MOST_FIELDS {
        if e == template.count {
            break 'values;
        }
        if template.given[e] {
            let lowest = template.lowest[e];
            if lowest == template.highest[e] {
                if tuples::bits(tuples, i, e) != lowest {
                    return false;
                }
            }
        }
    }
    true
}

// A match: the same space, and none fails.
fn agrees(tuples: &[u8], i: usize, template: Template) -> bool
    requires { HasRows tuple_size tuples.now (i + 1) × (template.count ≤ most_fields) }
    ensures { result ≡ is_match (template_is template) (tuple_at tuples.now i) }
{
    if tuples::space(tuples, i) != template.space {
        return false;
    }
    matches!(first_mismatch(tuples, i, template), Ok(()))
}

// Whether a tuple is a match.
pub fn is_match(tuples: &[u8], i: usize, template: Template) -> bool
    requires { HasRows tuple_size tuples.now (i + 1) × (template.count ≤ most_fields) }
    ensures { result ≡ is_match (template_is template) (tuple_at tuples.now i) }
{
    may_match(tuples, i, template) && agrees(tuples, i, template)
}

// "the oldest match": the first of n tuples that the template matches.
pub fn find(tuples: &[u8], n: usize, template: Template) -> Option<usize>
    requires { (length tuples.now ≡ tuples_size) × (n ≤ most_tuples) × (template.count ≤ most_fields) }
    ensures { found_is tuples.now result ≡ first (is_match (template_is template)) (tuples_of tuples.now n) }
{
    for i in 0..n {
        if may_match(tuples, i, template) && agrees(tuples, i, template) {
            return Some(i);
        }
    }
    None
}
