// Move and copy on the tuples of a state: all that a template selects, appended to a space.
#![tactic(auto)]

ghost use Rattle.std.specs.Prelude.{◌≡◌, ◌+◌, ◌*◌, ◌≤◌, ◌<◌, length};
ghost use Rattle.basis.specs.Sizes.{space_numbers, most_fields, tuple_size};
ghost use Rattle.model.specs.Matching.{selected};
ghost use Rattle.model.specs.Execution.{moved};
ghost use Rattle.tuples.specs.Section.{tuple_at, tuples_of, Holds, Section};
ghost use Rattle.matching.specs.Meaning.{template_is};
ghost use Rattle.sections.specs.Rows.{HasRows, rows_from, rows_over};
ghost use Rattle.tuples.specs.Entry.{with_space};
ghost use Rattle.moves.specs.Moves.{relocated, Copies, most_held, Keeps};

use matching::Template;

// How many tuples that are not selected a move holds at once.
const HELD: usize = 61;

// Whether move and copy take the tuple at index i: "0 fields match every tuple of the space".
fn selected(tuples: &[u8], i: usize, template: Template) -> bool
    requires { HasRows tuple_size tuples.now (i + 1) × (template.count ≤ most_fields) }
    ensures { result ≡ selected (template_is template) (tuple_at tuples.now i) }
{
    if template.count == 0 {
        return tuples::space(tuples, i) == template.space;
    }
    matching::is_match(tuples, i, template)
}

// The tuple at index i, in the space `to`, as the row at index j.
fn relocate(tuples: &mut [u8], j: usize, i: usize, to: u16)
    requires { HasRows tuple_size tuples.old (j + 1) × HasRows tuple_size tuples.old (i + 1) }
    ensures { tuples.new ≡ rows_over tuple_size tuples.old j (with_space to (rows_from tuple_size tuples.old i)) 1 }
{
    tuples::move_row(tuples, j, i);
    tuples::set_space(tuples, j, to);
}

// ---- move: one pass, which leaves m others in place and k moved tuples behind them; others that came after a moved one are held beside the section

// The first h rows of `held` put in at index m: the k rows from there on are moved up before.
fn put_in(tuples: &mut [u8], m: usize, k: usize, held: &[u8], h: usize)
    requires { HasRows tuple_size tuples.old (m + h + k) × HasRows tuple_size held.now h }
    ensures { tuples.new ≡ rows_over tuple_size (rows_over tuple_size tuples.old (m + h) (rows_from tuple_size tuples.old m) k) m held.now h }
{
    tuples::move_rows_up(tuples, m + h, m, k);
    tuples::copy_rows(tuples, m, held, 0, h);
}

// The tuple at index i, one of the others: it stays where none was moved, else it is held, and those held are put in once they are HELD. How many
// others are in place then.
fn keep_other(tuples: &mut [u8], held: &mut [u8], m: usize, k: usize, i: usize) -> usize
    requires { HasRows tuple_size tuples.old (i + 1) × (length held.old ≡ most_held * tuple_size) × (m + k ≤ i) × (i < m + k + most_held) }
    ensures { (i + 1 < result + k + most_held) × Keeps tuples.old held.old tuples.new held.new m k i result }
{
    if k == 0 {
        return m + 1;
    }
    let h = i - (m + k);
    tuples::copy_rows(held, h, tuples, i, 1);
    if h + 1 < HELD {
        return m;
    }
    put_in(tuples, m, k, held, HELD);
    m + HELD
}

// "move removes all matches and appends them to the new space in their old order".
pub fn move_all(tuples: &mut [u8], n: usize, template: Template, to: u16)
    requires { Section tuples.old n × (template.count ≤ most_fields) × (to < space_numbers) }
    ensures { Holds tuples.new n (moved (selected (template_is template)) to (tuples_of tuples.old n)) }
{
    let mut held = [0u8; HELD * words::TUPLE];
    let mut m = 0;
    let mut k = 0;
    for i in 0..n {
        if selected(tuples, i, template) {
            relocate(tuples, m + k, i, to);
            k += 1;
        } else {
            m = keep_other(tuples, &mut held, m, k, i);
        }
    }
    put_in(tuples, m, k, &held, n - (m + k));
}

// "copy appends copies of the matches present before it": how many tuples there are then; or nothing, where they "would pass 512".
pub fn copy_all(tuples: &mut [u8], n: usize, template: Template, to: u16) -> Option<usize>
    requires { Section tuples.old n × (template.count ≤ most_fields) × (to < space_numbers) }
    ensures { Copies result tuples.old tuples.new n (relocated template to (tuples_of tuples.old n)) }
{
    let mut m = n;
    for i in 0..n {
        if selected(tuples, i, template) {
            if words::MOST_TUPLES <= m {
                tuples::clear_rows(tuples, n, m);
                return None;
            }
            relocate(tuples, m, i, to);
            m += 1;
        }
    }
    Some(m)
}
