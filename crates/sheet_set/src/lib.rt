// Reads the lines after a parameter sheet's first two into a set: those of the series, of the start and c, and of ages 0 to 90.
#![tactic(auto)]

ghost use Rattle.std.specs.Prelude.{◌≡◌, ◌++◌, ◌<◌, drop};
ghost use Rattle.text_words.specs.code.ShortText.{Holds};
ghost use Rattle.text_tokens.specs.Text.{bytes_of};
ghost use Rattle.text_tokens.specs.Number.{unsigned_text};
ghost use Rattle.set_params.specs.declared.Table.TheVariants.{LiLee};
ghost use Rattle.set_params.specs.Set.{ages};
ghost use Rattle.set_params.specs.code.Runs.{Whole};
ghost use Rattle.sheet.specs.Sheet.{read_lines, age_keys};
ghost use Rattle.sheet.specs.code.Lines.{lines_read};
ghost use Rattle.sheet_set.specs.code.Ages.{ages_read, set_read, from_ages};
ghost use Rattle.sheet_set.specs.code.SetLines.{from_lines, read_start};

use set_params::{Params, Sex, Table};
use text_words::Short;

// A set that was read, and the place that follows its lines.
#[derive(Clone, Copy)]
pub struct SetRead {
    pub set: Params,
    pub next: usize,
}

// The text of an age and the `=` after it.
fn age_text(x: usize) -> Short
    requires { x < ages }
    ensures { Holds result (unsigned_text x ++ bytes_of "=") }
{
    let units = b'0' + (x % 10) as u8;
    if x < 10 {
        return text_words::two(units, b'=');
    }
    text_words::three(b'0' + (x / 10) as u8, units, b'=')
}

// The four lines of age x at a place.
fn age_at(bytes: &[u8], at: usize, x: usize) -> Option<([i64; 4], usize)>
    requires { x < ages }
    ensures { lines_read bytes.now result ≡ read_lines (age_keys x) (drop at bytes.now) }
{
    let age = age_text(x);
    let level = text_words::joined(text_words::two(b'A', b'.'), age);
    let slope = text_words::joined(text_words::two(b'B', b'.'), age);
    let alpha = text_words::joined(text_words::three(b'a', b'l', b'.'), age);
    let beta = text_words::joined(text_words::three(b'b', b'e', b'.'), age);
    sheet::four_at(bytes, at, level, slope, alpha, beta)
}

// The lines of ages 0 to 90 at a place, into the runs of a set; what is given is the place after them.
fn ages_at(bytes: &[u8], at: usize, set: &mut Params) -> Option<usize>
    requires { Whole set.old }
    ensures { ages_read bytes.now set.new result ≡ from_ages set.old (drop at bytes.now) }
{
    let mut next = at;
    for x in 0..set_params::AGES {
        let ([level, slope, alpha, beta], after) = age_at(bytes, next, x)?;
        set.level[x] = level;
        set.slope[x] = slope;
        set.alpha[x] = alpha;
        set.beta[x] = beta;
        next = after;
    }
    Some(next)
}

// The lines of the start and c at a place.
fn start_lines(bytes: &[u8], at: usize) -> Option<([i64; 2], usize)>
    ensures { lines_read bytes.now result ≡ read_start LiLee (drop at bytes.now) }
{
    let head = text_words::joined(
        text_words::three(b's', b't', b'a'),
        text_words::three(b'r', b't', b'='),
    );
    let (start, next) = sheet::line_at(bytes, at, head)?;
    let (c, after) = sheet::line_at(bytes, next, text_words::two(b'c', b'='))?;
    Some(([start, c], after))
}

// The start and c of a sheet of the table: by their lines at a place, where it has them.
fn start_at(bytes: &[u8], at: usize, table: Table) -> Option<([i64; 2], usize)>
    ensures { lines_read bytes.now result ≡ read_start table (drop at bytes.now) }
{
    match table {
        Table::Ag2014 => Some(([set_params::FIRST_START, 0], at)),
        Table::LiLee => start_lines(bytes, at),
    }
}

// The lines after the first two, which begin at a place, into a set of this table and sex.
pub fn set_at(bytes: &[u8], at: usize, table: Table, sex: Sex) -> Option<SetRead>
    ensures { set_read bytes.now result ≡ from_lines table sex (drop at bytes.now) }
{
    let ([a, theta, period, kappa], after) = sheet::four_at(
        bytes,
        at,
        text_words::two(b'a', b'='),
        text_words::joined(
            text_words::three(b't', b'h', b'e'),
            text_words::three(b't', b'a', b'='),
        ),
        text_words::two(b'K', b'='),
        text_words::two(b'k', b'='),
    )?;
    let ([start, c], first) = start_at(bytes, after, table)?;
    let mut set = Params {
        table,
        sex,
        start,
        a,
        theta,
        c,
        period,
        kappa,
        level: [0; set_params::AGES],
        slope: [0; set_params::AGES],
        alpha: [0; set_params::AGES],
        beta: [0; set_params::AGES],
    };
    let next = ages_at(bytes, first, &mut set)?;
    Some(SetRead { set, next })
}
