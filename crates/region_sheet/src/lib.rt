// The sheet for the field binder: document 02, U1. A row for each region, in columns, and 60 rows a page. No public
// function has a `requires`.
#![tactic(auto)]

ghost use Rattle.std.specs.Prelude.{◌≡◌, ◌++◌, ◌+◌, ◌≤◌, drop, take, replicate};
ghost use Rattle.region_text.specs.Text.{blank};
ghost use Rattle.region_sheet.specs.Row.{row_text, right_aligned, position_columns};
ghost use Rattle.region_sheet.specs.Pages.{rows_after};

use region_text::DIGITS;

// The bytes of a row: 45 characters and a line feed.
pub const ROW: usize = 46;

// The rows of a page.
pub const PAGE: u32 = 60;

// The first columns of the four positions, and those of the flag and of the line feed.
const START: usize = 0;

const END: usize = 11;

const FLAG: usize = 22;

const PADDED_START: usize = 24;

const PADDED_END: usize = 35;

const LAST: usize = 45;

// The columns of a position.
const COLUMNS: usize = 10;

// The row of a region, whatever the numbers are: ten columns hold every one. The five fields are arguments, and no region:
// the definition `row_text` is of these five numbers.
pub fn row_text(
    start: u32,
    end: u32,
    is_active: bool,
    padded_start: u32,
    padded_end: u32,
) -> [u8; ROW]
    ensures { result ≡ row_text start end is_active padded_start padded_end }
{
    let mut row = [b' '; ROW];
    row[LAST] = b'\n';
    column(&mut row, PADDED_END, padded_end);
    column(&mut row, PADDED_START, padded_start);
    row[FLAG] = b'0' + u8::from(is_active);
    column(&mut row, END, end);
    column(&mut row, START, start);
    row
}

// Writes n right-aligned into the ten columns from `from` on. All up to their end is blank before.
fn column(row: &mut [u8; ROW], from: usize, n: u32)
    requires position_columns_bound { from + position_columns ≤ 46 }
    requires row_value { take (from + position_columns) row.old ≡ replicate (from + position_columns) blank }
    ensures { row.new
        ≡ replicate from blank ++ (right_aligned position_columns n ++ drop (from + position_columns) row.old) }
{
    let mut digits = [0u8; DIGITS];
    let first = region_text::decimal_text(u64::from(n), &mut digits);
    let digits = &digits[first..];
    let end = from + COLUMNS;
    row[end - digits.len()..end].copy_from_slice(digits);
}

// How many rows stand on a page after one more: none where that was its last, and a form feed stands behind it.
#[tactic(auto, using(std::proofs::lemmas::Bool::Decides::nat_tests))]
pub fn rows_after(rows: u32) -> u32
    ensures { result ≡ rows_after rows }
{
    if rows < PAGE - 1 {
        return rows + 1;
    }
    0
}
