// What is printed after a query that two sheets answer, written into a buffer that the caller lends.
#![tactic(auto)]

ghost use Rattle.std.specs.Prelude.{◌++◌};
ghost use Rattle.text_printing.specs.code.Put.{Room, Put};
ghost use Rattle.run_compare_text.specs.CompareText.{excess_text, values_text, pair_text, comparison_text};
ghost use Rattle.run_compare_text.specs.code.Sizes.{SizedExcess, SizedValues, SizedPair, SizedComparison};

use quote_compare::{Comparison, Excess, Pair, Values};

// Writes a word, ` least=` and ` most=` with their numbers; the place after them.
fn put_excess(buffer: &mut [u8], at: usize, word: &[u8], excess: Excess) -> usize
    requires { SizedExcess excess × Room buffer.old at (word.now ++ excess_text excess) }
    ensures { Put buffer.old at (word.now ++ excess_text excess) buffer.new result }
{
    let place = text_printing::put_text(buffer, at, word);
    let end = run_answer_text::put_units(buffer, place, b" least=", excess.least);
    run_answer_text::put_units(buffer, end, b" most=", excess.most)
}

// Writes what is told of the values; the place after it.
fn put_values(buffer: &mut [u8], at: usize, values: Values) -> usize
    requires { SizedValues values × Room buffer.old at (values_text values) }
    ensures { Put buffer.old at (values_text values) buffer.new result }
{
    match values {
        Values::Below(excess) => put_excess(buffer, at, b" values=below", excess),
        Values::Above(excess) => put_excess(buffer, at, b" values=above", excess),
        Values::Near(most) => run_answer_text::put_units(buffer, at, b" values=near most=", most),
    }
}

// Writes two figures with so many decimals, what is told of the values, their unit, and the line feed; the place after it.
fn put_pair(buffer: &mut [u8], at: usize, decimals: usize, pair: Pair) -> usize
    requires { SizedPair pair × Room buffer.old at (pair_text decimals pair) }
    ensures { Put buffer.old at (pair_text decimals pair) buffer.new result }
{
    let first = pair.first;
    let second = pair.second;
    let values = pair.values;
    let unit = pair.unit;
    let place = run_figure_text::put_shown(buffer, at, decimals, first);
    let told = run_figure_text::put_shown(buffer, place, decimals, second);
    let valued = put_values(buffer, told, values);
    let end = run_answer_text::put_unit(buffer, valued, unit);
    text_printing::put_text(buffer, end, b"\n")
}

// Writes what follows a query; the place after it.
pub fn put_comparison(
    buffer: &mut [u8],
    at: usize,
    decimals: usize,
    comparison: Comparison,
) -> usize
    requires { SizedComparison comparison × Room buffer.old at (comparison_text decimals comparison) }
    ensures { Put buffer.old at (comparison_text decimals comparison) buffer.new result }
{
    match comparison {
        Ok(pair) => put_pair(buffer, at, decimals, pair),
        Err(refusal) => run_answer_text::put_refused(buffer, at, refusal),
    }
}
