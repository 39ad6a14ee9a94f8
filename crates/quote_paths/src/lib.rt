// The path of a quote and what is taken of it. Its values are definitions and laws: see specs/.

// A path over `count` years from an age in a year, counted from the start year: along the cohort, or in that one year.
#![tactic(auto)]

#[derive(Clone, Copy)]
pub struct Path {
    pub cohort: bool,
    pub age: usize,
    pub year: u64,
    pub count: usize,
}

// A part of a year: some days out of the whole, none where they are 0.
#[derive(Clone, Copy)]
pub struct Part {
    pub days: u64,
    pub whole: u64,
}

// What is taken of a path's factors, an annuity's price with its rate.
#[derive(Clone, Copy)]
pub enum Fold {
    Death,
    Survival,
    Expectancy,
    Annuity(i64),
}
