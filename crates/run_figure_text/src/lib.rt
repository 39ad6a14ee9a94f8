// A figure as text: its steps with so many decimals, or `open`.
#![tactic(auto)]

ghost use Rattle.std.specs.Prelude.{◌≡◌, ◌/◌, ◌^◌};
ghost use Rattle.text_printing.specs.code.Put.{Room, Put};
ghost use Rattle.run_figure_text.specs.FigureText.{last_digits, figure_text, shown_text};
ghost use Rattle.run_figure_text.specs.code.Sizes.{Printable};

use number_exact::Figure;

// A number without its last digits.
fn without_last(n: u64, decimals: usize) -> u64
    ensures { result ≡ n / 10 ^ decimals }
{
    let mut rest = n;
    for _taken in 0..decimals {
        rest /= 10;
    }
    rest
}

// Writes a number's last digits from a place on, the last one first; the place after them.
fn put_last_digits(buffer: &mut [u8], at: usize, decimals: usize, n: u64) -> usize
    requires { Room buffer.old at (last_digits decimals n) }
    ensures { Put buffer.old at (last_digits decimals n) buffer.new result }
{
    let mut rest = n;
    for place in (0..decimals).rev() {
        buffer[at + place] = b'0' + (rest % 10) as u8;
        rest /= 10;
    }
    at + decimals
}

// Writes a figure from a place on; the place after it.
fn put_figure(buffer: &mut [u8], at: usize, decimals: usize, figure: Figure) -> usize
    requires { Printable figure × Room buffer.old at (figure_text decimals figure) }
    ensures { Put buffer.old at (figure_text decimals figure) buffer.new result }
{
    let Figure::Printed(steps) = figure else {
        return text_printing::put_text(buffer, at, b"open");
    };
    let whole = without_last(steps, decimals) as i64;
    let point = text_printing::put_number(buffer, at, whole);
    let first = text_printing::put_text(buffer, point, b".");
    put_last_digits(buffer, first, decimals, steps)
}

// Writes ` fig=` and a figure with so many decimals; the place after it.
pub fn put_shown(buffer: &mut [u8], at: usize, decimals: usize, figure: Figure) -> usize
    requires { Printable figure × Room buffer.old at (shown_text decimals figure) }
    ensures { Put buffer.old at (shown_text decimals figure) buffer.new result }
{
    let place = text_printing::put_text(buffer, at, b" fig=");
    put_figure(buffer, place, decimals, figure)
}
