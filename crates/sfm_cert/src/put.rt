// The pieces of a text, in order: names, numbers, and a line for a block, a slope or a row.
ghost use Rattle.std.specs.{Prelude.{◌≡◌, ℕ, ◌+◌, ◌<◌, List, [], ◌∷◌, ◌++◌, length, map}, Fmt.{decimal, signed_decimal}, List.{All}};
ghost use Rattle.sfm_spec.specs.{Bounds.{IsEntry}, Blocks.{block_at}};
ghost use Rattle.sfm_extreme.specs.Blocks.{block_of};
ghost use Rattle.sfm_cert.specs.{Answer.{listed, slope_text, at_line, block_line, slope_line, row_lines, section_lines, text_of}, LineLists.{counted, numbered, block_lines, slope_lines, row_line}, Form.{AreFormedRows}, Solved.{break_of}, Spots.{spot_label}};

use crate::out::Out;
use crate::spot::Spot;
use sfm_base::{Rows, Set, Slope};
use sfm_extreme::Block;
use sfm_kind::Instance;
use sfm_law::Break;

/// A space and a name.
fn put_name<O: Out>(out: &mut O, name: &[u8])
    ensures { out.new ≡ O.after out.old (32 ∷ name.now) }
{
    out.put_byte(b' ');
    out.put(name);
}

/// A space and the name of each member.
pub fn put_names<O: Out>(out: &mut O, instance: &Instance, members: &Set)
    requires { length instance.now.names ≡ length members.now }
    ensures { out.new ≡ O.after out.old (listed instance.now.names members.now) }
{
    for e in 0..instance.names_len() {
        if members.contains(e) {
            put_name(out, instance.name(e));
        }
    }
}

/// The text of a number.
pub fn put_number<O: Out>(out: &mut O, a: i128)
    ensures { out.new ≡ O.after out.old (signed_decimal a) }
{
    out.put_signed(a);
}

/// The text of a count.
fn put_count<O: Out>(out: &mut O, n: usize)
    ensures { out.new ≡ O.after out.old (decimal n) }
{
    out.put_signed(n as i128);
}

/// A space and the text of a number.
fn put_entry<O: Out>(out: &mut O, a: i128)
    ensures { out.new ≡ O.after out.old (32 ∷ signed_decimal a) }
{
    out.put_byte(b' ');
    put_number(out, a);
}

/// A space and the text of each number.
pub fn put_numbers<O: Out>(out: &mut O, numbers: &[i128])
    requires { All IsEntry numbers.now }
    ensures { out.new ≡ O.after out.old (numbered numbers.now) }
{
    for a in numbers {
        put_entry(out, *a);
    }
}

/// A space and the text of each count.
fn put_counts<O: Out>(out: &mut O, counts: &[usize])
    ensures { out.new ≡ O.after out.old (counted counts.now) }
{
    for n in counts {
        out.put_byte(b' ');
        put_count(out, *n);
    }
}

/// A slope.
fn put_slope<O: Out>(out: &mut O, num: i128, den: i128)
    ensures { out.new ≡ O.after out.old (slope_text num den) }
{
    put_number(out, num);
    out.put_byte(b'/');
    put_number(out, den);
}

/// The line of a block, with its number.
fn put_block<O: Out>(out: &mut O, instance: &Instance, number: usize, block: &Block)
    requires { length instance.now.names ≡ length block.now.members }
    ensures { out.new ≡ O.after out.old (text_of (block_line instance.now.names number
        (block_of block.now) ∷ [])) }
{
    out.put(b"block ");
    put_count(out, number);
    put_names(out, instance, &block.members);
    out.put(b" :");
    put_counts(out, &block.needs);
    out.put_byte(b'\n');
}

/// A line for each block, numbered from 1.
pub fn put_blocks<O: Out>(out: &mut O, instance: &Instance, blocks: &[Block])
    requires { (i : ℕ) → i < length (map block_of blocks.now)
        → length (block_at (map block_of blocks.now) i).members ≡ length instance.now.names }
    ensures { out.new ≡ O.after out.old (text_of (block_lines instance.now.names 1
        (map block_of blocks.now))) }
{
    for (i, block) in blocks.iter().enumerate() {
        put_block(out, instance, i + 1, block);
    }
}

/// The line of a slope, with its set.
fn put_break<O: Out>(out: &mut O, instance: &Instance, b: &Break)
    requires { length instance.now.names ≡ length b.now.set }
    ensures { out.new ≡ O.after out.old (text_of (slope_line instance.now.names
        (break_of b.now) ∷ [])) }
{
    out.put(b"slope ");
    put_slope(out, b.slope.num, b.slope.den);
    put_names(out, instance, &b.set);
    out.put_byte(b'\n');
}

/// A line for each slope.
pub fn put_breaks<O: Out>(out: &mut O, instance: &Instance, breaks: &[Break])
    requires { All (λ b. length b.members ≡ length instance.now.names) (map break_of breaks.now) }
    ensures { out.new ≡ O.after out.old (text_of (slope_lines instance.now.names
        (map break_of breaks.now))) }
{
    for b in breaks {
        put_break(out, instance, b);
    }
}

/// The label of a term: the number of its line, and behind a point that of its layer, where its line has layers.
fn put_label<O: Out>(out: &mut O, spot: Spot)
    requires { spot.before + 1 < 18446744073709551616 }
    ensures { out.new ≡ O.after out.old (spot_label spot) }
{
    put_count(out, spot.before + 1);
    if spot.layer > 0 {
        out.put_byte(b'.');
        put_count(out, spot.layer);
    }
}

/// The line of a row, with the label of its term.
fn put_row<O: Out>(out: &mut O, word: &[u8], spot: Spot, row: &[i128])
    requires few { spot.before + 1 < 18446744073709551616 }
    requires small { All IsEntry row.now }
    ensures { out.new ≡ O.after out.old (text_of (row_line word.now (spot_label spot) row.now ∷ [])) }
{
    out.put(word);
    put_label(out, spot);
    put_numbers(out, row);
    out.put_byte(b'\n');
}

/// A line for each term: a word, its label, and the entries of its row.
pub fn put_rows<O: Out>(out: &mut O, instance: &Instance, word: &[u8], rows: &Rows)
    requires count { length rows.now ≡ length instance.now.terms }
    requires small { All (λ row. All IsEntry row) rows.now }
    ensures { out.new ≡ O.after out.old (text_of (row_lines word.now instance.now.lines 1 rows.now)) }
{
    let _ = instance.terms();
    let lines = instance.lines();
    let mut spot = Spot::first(lines);
    for i in 0..rows.len() {
        put_row(out, word, spot, rows.row(i));
        spot = spot.next(lines);
    }
}

/// What the line that tells a slope holds.
pub fn put_at<O: Out>(out: &mut O, slope: &Slope)
    ensures { out.new ≡ O.after out.old (at_line slope.now.num slope.now.den) }
{
    out.put(b"at ");
    put_slope(out, slope.num, slope.den);
}

/// The line that tells a slope, and the bases at it.
pub fn put_section<O: Out>(out: &mut O, instance: &Instance, slope: &Slope, bases: &Rows)
    requires count { length bases.now ≡ length instance.now.terms }
    requires small { All (λ base. All IsEntry base) bases.now }
    ensures { out.new ≡ O.after out.old (text_of (section_lines instance.now.lines slope.now.num
        slope.now.den bases.now)) }
{
    put_at(out, slope);
    out.put_byte(b'\n');
    put_rows(out, instance, b"base ", bases);
}
