// The twelve parameters of the pod: their rows as one constant table, and the state by value.
#![tactic(auto)]

mod kept;

ghost use Rattle.std.specs.Prelude.{◌≡◌, ◌&&◌, ◌-◌, ◌<◌, true, false, MatchOption, get_or};
ghost use Rattle.params.specs.Rows.{param_rows, no_param_row, param_row};
ghost use Rattle.params.specs.Rules.{is_id, in_row, in_span, start_params, write_of, value_read, reading_said, sound_params};

use crate::kept::{listed, struck};

#[derive(Clone, Copy)]
pub struct ParamRow {
    pub least: i32,
    pub most: i32,
    pub start: i32,
    pub asked: bool,
}

// The values, and whether each was written since Initialise; id 1 first. The ids that are asked and not written, as Status shows
// them. Two lists and not one of pairs, since the definitions (`in_rows`, `list_kept`, `stored`) have each by itself; zeros behind the ids and
// no `Option`, since document 01 has eight ids, "then zeros" (`missing_of`).
#[derive(Clone, Copy)]
pub struct Params {
    pub values: [i32; 12],
    pub written: [bool; 12],
    pub missing: [u8; 8],
}

const TRIM: ParamRow = ParamRow {
    least: -500,
    most: 500,
    start: 0,
    asked: false,
};

// The rows by id.
const ROWS: [ParamRow; 12] = [
    // 1: span low, 0.01 C
    ParamRow {
        least: -4000,
        most: 15000,
        start: -2000,
        asked: true,
    },
    // 2: span high, 0.01 C
    ParamRow {
        least: -4000,
        most: 15000,
        start: 12000,
        asked: true,
    },
    // 3: emissivity, thousandths
    ParamRow {
        least: 100,
        most: 1000,
        start: 950,
        asked: true,
    },
    // 4: frame interval, ms
    ParamRow {
        least: 40,
        most: 60000,
        start: 1000,
        asked: false,
    },
    // 5: passes
    ParamRow {
        least: 1,
        most: 16,
        start: 16,
        asked: false,
    },
    // 6: reflected, 0.01 C
    ParamRow {
        least: -4000,
        most: 15000,
        start: 2000,
        asked: true,
    },
    // 7: lens
    ParamRow {
        least: 0,
        most: 3,
        start: 0,
        asked: true,
    },
    // 8: palette
    ParamRow {
        least: 0,
        most: 7,
        start: 0,
        asked: false,
    },
    // 9 to 12: trims
    TRIM,
    TRIM,
    TRIM,
    TRIM,
];

// The row of the id i + 1.
fn row_at(i: usize) -> ParamRow
    requires { i < 12 }
    ensures { result ≡ get_or param_rows i no_param_row }
{
    ROWS[i]
}

// Whether a value is in a row.
fn in_row(r: ParamRow, v: i32) -> bool
    ensures { result ≡ in_row r v }
{
    (r.least <= v) & (v <= r.most)
}

// Whether parameter 1 is below parameter 2.
fn in_span(p: &Params) -> bool
    ensures { result ≡ in_span p.now }
{
    p.values[0] < p.values[1]
}

// Whether a byte is a parameter's id.
#[tactic(auto, unfolding(crate::specs::Rules::is_id))]
pub fn is_id(id: u8) -> bool
    ensures { result ≡ is_id id }
{
    (1 <= id) & (id <= 12)
}

// The place of an id among the rows, the values and the marks.
#[tactic(auto, unfolding(crate::specs::Rules::is_id))]
fn place_of(id: u8) -> Option<usize>
    ensures { MatchOption result (is_id id ≡ false) (λ i. (is_id id ≡ true) × (i ≡ id - 1) × (i < 12)) }
{
    match id {
        1..=12 => Some(usize::from(id - 1)),
        _ => None,
    }
}

// Whether a byte is an id and a value is in its row; that 1 stays below 2 is another matter.
pub fn in_bounds(id: u8, value: i32) -> bool
    ensures { result ≡ (is_id id && in_row (param_row id) value) }
{
    match place_of(id) {
        Some(i) => in_row(row_at(i), value),
        None => false,
    }
}

// The ids that are asked, rising, then zeros; `n` counts them as in `struck`.
fn asked_ids() -> [u8; 8]
    ensures { result ≡ start_params.missing }
{
    let mut out = [0u8; 8];
    let mut n: usize = 0;
    for (i, row) in ROWS.iter().enumerate() {
        if row.asked {
            out[n] = (i + 1) as u8;
            n += 1;
        }
    }
    out
}

// All parameters at their starts, nothing written, each asked one missing.
#[tactic(auto, unfolding(crate::specs::Rules::start_params))]
pub fn start() -> Params
    ensures { result ≡ start_params }
{
    Params {
        values: ROWS.map(|row| row.start),
        written: [false; 12],
        missing: asked_ids(),
    }
}

// A write: the state with the value stored, its id marked and struck out; none where it is not taken.
#[tactic(auto, unfolding(crate::specs::Rules::write_of, crate::specs::Rules::write_allowed))]
pub fn write(p: &Params, id: u8, value: i32) -> Option<Params>
    ensures { result ≡ write_of p.now id value }
{
    let i = place_of(id)?;
    let mut q = *p;
    q.values[i] = value;
    q.written[i] = true;
    q.missing = struck(p.missing, id);
    if in_row(row_at(i), value) & in_span(&q) {
        Some(q)
    } else {
        None
    }
}

// The value of an id.
#[tactic(auto, unfolding(crate::specs::Rules::value_read))]
pub fn value(p: &Params, id: u8) -> Option<i32>
    ensures { reading_said result ≡ value_read p.now id }
{
    let i = place_of(id)?;
    Some(p.values[i])
}

// Whether each value is in its row, parameter 1 below parameter 2, and the kept list the one that the marks decide. A
// flag goes through the loop, since `all`, which stops at the first, makes every call 21 instructions dearer, over the bar of a word call.
pub fn sound(p: &Params) -> bool
    ensures { result ≡ sound_params p.now }
{
    let mut ok = true;
    for (row, v) in ROWS.iter().zip(&p.values) {
        ok = ok & in_row(*row, *v);
    }
    ok & in_span(p) & listed(p)
}
