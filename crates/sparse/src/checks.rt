// The checks of a pattern, in the table's order. Each equals its row of the table, for any slices that the checks before it let through.
ghost use Rattle.std.specs.Prelude.{◌≡◌, ℕ, ◌+◌, ◌-◌, ◌<◌, ◌≤◌, Bool, true, false, List, map, length, unwrap_or, IfOk, IfSome};
ghost use Rattle.graph.specs.Counting.{count, some};
ghost use Rattle.sparse.specs.Limits.{max_entries};
ghost use Rattle.sparse.specs.Matrix.{RowsBelow};
ghost use Rattle.sparse.specs.Refusals.{first_refusal, Buffer, as_buffer, one_short, early, checked};
ghost use Rattle.sparse.specs.Refusals.{too_large, misshapen, row_outside, repeated_row, empty_column};
ghost use Rattle.sparse.specs.Refusals.{falls_at, repeats_at, refused_at};
ghost use Rattle.sparse.specs.declared.refusal.Refusal.{Refusal};
ghost use Rattle.sparse.specs.Parts.{ZeroBelow, Unmarked, FirstAgain, Tallied, Counted, marked, found, CallableBelow, GivesBelow};
ghost use Rattle.sparse.specs.Parts.{row_falls_at, falls_into, opens_falling, enters_falling};

use super::slices::{get, put};
use super::{Column, MAX_ENTRIES, MAX_SIZE, OriginalRow, Refusal, SparseMat, SquareMat};

// Refusal 1.
pub fn check_size(size: u32, rows: &[u32]) -> Result<(), Refusal>
    ensures { result ≡ too_large size rows.now }
{
    Refusal::TooLarge.when((MAX_SIZE < size) | ((MAX_ENTRIES as usize) < rows.len()))
}

// Whether a test takes one of the numbers below n. It goes through without a branch: nearly every input passes, and a place is looked
// for only where there is one.
fn some_below<F: Fn(u32) -> bool>(n: u32, takes: F) -> bool
    requires { CallableBelow n (F.pre takes) }
    ensures { (p : ℕ → Bool) → GivesBelow n (F.post takes) p → result ≡ some p n }
{
    let mut found = false;
    for i in 0..n {
        found |= takes(i);
    }
    found
}

// The first number below n that a test takes.
fn first_below<F: Fn(u32) -> bool>(n: u32, takes: F) -> Option<u32>
    requires { CallableBelow n (F.pre takes) }
    ensures found { (p : ℕ → Bool) → GivesBelow n (F.post takes) p → result ≡ found p n }
    ensures below { IfSome result (λ k. k < n) }
{
    for i in 0..n {
        if takes(i) {
            return Some(i);
        }
    }
    None
}

// Refused at the first number below n that a test takes, if there is one.
fn refused_below<F: Fn(u32) -> bool + Copy, R: Fn(u32) -> Refusal>(
    n: u32,
    takes: F,
    refusal: R,
) -> Result<(), Refusal>
    requires takes { CallableBelow n (F.pre takes) }
    requires refusal { CallableBelow n (R.pre refusal) }
    ensures { (p : ℕ → Bool) (at : ℕ → Refusal) → GivesBelow n (F.post takes) p → GivesBelow n (R.post refusal) at
        → result ≡ refused_at at p n }
{
    if !some_below(n, takes) {
        return Ok(());
    }
    match first_below(n, takes) {
        Some(k) => Err(refusal(k)),
        None => Ok(()),
    }
}

// Whether some column starts after the next one does.
fn any_falls(size: u32, starts: &[u32]) -> bool
    requires { length starts.now ≡ size + 1 }
    ensures { result ≡ some (falls_at starts.now) size }
{
    some_below(size, |c| starts[c as usize + 1] < starts[c as usize])
}

// Refusal 2.
pub fn check_shape(size: u32, starts: &[u32], rows: &[u32]) -> Result<(), Refusal>
    requires { length rows.now ≤ max_entries }
    ensures { result ≡ misshapen size starts.now rows.now }
{
    if starts.len() != size as usize + 1 {
        return Err(Refusal::Misshapen);
    }
    let from = starts[0] != 0;
    let to = starts[size as usize] != rows.len() as u32;
    Refusal::Misshapen.when(from | any_falls(size, starts) | to)
}

// Refusal 3.
pub fn check_rows(size: u32, rows: &[u32]) -> Result<(), Refusal>
    requires { length rows.now ≤ max_entries }
    ensures { result ≡ row_outside size rows.now }
{
    refused_below(
        rows.len() as u32,
        |k| size <= rows[k as usize],
        |k| Refusal::RowOutside(k),
    )
}

// Whether one of several buffers, each a length and a need, is shorter than its need.
pub fn any_short(buffers: &[(usize, usize)]) -> bool
    ensures { result ≡ one_short (map as_buffer buffers.now) }
{
    buffers.iter().any(|(len, need)| *len < *need)
}

// Refusals 1, 2, 5 and 3, which leave every buffer as it is; the caller has tested its buffers. What they let through is a matrix.
pub fn check_early<'s, 'a>(
    size: u32,
    starts: &'s [u32],
    rows: &'a [u32],
    short: bool,
) -> Result<SquareMat<'s, 'a>, Refusal>
    ensures value { (buffers : List Buffer) → short ≡ one_short buffers
        → checked result ≡ first_refusal (early size starts.now rows.now buffers) }
    ensures size { IfOk result (λ m. m.mat.size ≡ size) }
    ensures starts { IfOk result (λ m. m.mat.starts.now ≡ starts.now) }
    ensures rows { IfOk result (λ m. m.mat.rows.now ≡ rows.now) }
{
    check_size(size, rows)?;
    check_shape(size, starts, rows)?;
    Refusal::NoRoom.when(short)?;
    check_rows(size, rows)?;
    let mat = SparseMat { size, starts, rows };
    Ok(SquareMat { mat })
}

// Marks the rows of a column up to the first that is marked already, and says where that stands, if there is one.
fn mark(col: &[u32], marks: &mut [u32]) -> Option<usize>
    requires { RowsBelow col.now (length marks.old) × Unmarked col.now marks.old }
    ensures again { FirstAgain col.now result }
    ensures marks_after { marks.new ≡ marked col.now 1 (unwrap_or result (length col.now)) marks.old }
{
    for (k, row) in col.iter().enumerate() {
        let row = OriginalRow(*row);
        if get::<OriginalRow, u32>(marks, row) != 0 {
            return Some(k);
        }
        put::<OriginalRow, u32>(marks, row, 1);
    }
    None
}

// Takes the marks of the rows of a column away.
fn unmark(col: &[u32], marks: &mut [u32])
    requires { RowsBelow col.now (length marks.old) }
    ensures { marks.new ≡ marked col.now 0 (length col.now) marks.old }
{
    for row in col {
        put::<OriginalRow, u32>(marks, OriginalRow(*row), 0);
    }
}

// The first place of a column whose row stands before it there, if there is one. The marks are as they were.
pub fn find_repeat(col: &[u32], marks: &mut [u32]) -> Option<usize>
    requires { RowsBelow col.now (length marks.old) × Unmarked col.now marks.old }
    ensures again { FirstAgain col.now result }
    ensures marks_unchanged { marks.new ≡ marks.old }
{
    let place = mark(col, marks);
    unmark(&col[..place.unwrap_or(col.len())], marks);
    place
}

// Marks the rows of a column and says how many of them were marked already. Where mark stops at the first, this goes on: a loop
// without a branch is faster, and nearly every column has no repeat.
fn tally(col: &[u32], marks: &mut [u32]) -> u32
    requires few { length col.now ≤ max_entries }
    requires unmarked { RowsBelow col.now (length marks.old) × Unmarked col.now marks.old }
    ensures tallied { Tallied col.now (length col.now) result }
    ensures marks_after { marks.new ≡ marked col.now 1 (length col.now) marks.old }
{
    let mut seen = 0u32;
    for row in col {
        let row = OriginalRow(*row);
        seen += get::<OriginalRow, u32>(marks, row);
        put::<OriginalRow, u32>(marks, row, 1);
    }
    seen
}

// How many places repeat a row of their column. Its caller needs to know only whether there is one, so that is all it ensures.
fn count_repeats(mat: &SquareMat, marks: &mut [u32]) -> u32
    requires { (mat.now.mat.size ≤ length marks.old) × ZeroBelow mat.now.mat.size marks.old }
    ensures counted { Counted mat.now.mat.size mat.now.mat.starts.now mat.now.mat.rows.now
        (length mat.now.mat.rows.now) result }
    ensures marks_unchanged { marks.new ≡ marks.old }
{
    // A name of its own for what the loop reads, so that it does not go through a reference.
    let mat = mat.mat;
    let mut again = 0u32;
    for c in 0..mat.size {
        let rows = mat.col_rows(Column(c));
        again += tally(rows, marks);
        unmark(rows, marks);
    }
    again
}

// The first place that repeats a row of its column, if there is one.
fn first_repeat(mat: &SquareMat, marks: &mut [u32]) -> Option<u32>
    requires { (mat.now.mat.size ≤ length marks.old) × ZeroBelow mat.now.mat.size marks.old }
    ensures value { result ≡ found (repeats_at mat.now.mat.size mat.now.mat.starts.now mat.now.mat.rows.now)
        (length mat.now.mat.rows.now) }
    ensures marks_unchanged { marks.new ≡ marks.old }
{
    for c in 0..mat.mat.size {
        let c = Column(c);
        if let Some(k) = find_repeat(mat.mat.col_rows(c), marks) {
            let lo = get::<Column, u32>(mat.mat.starts, c);
            return Some(lo + k as u32);
        }
    }
    None
}

// Whether there is a row before place lo, and the first of the rows lo..hi is not above it.
fn falls_into(rows: &[u32], lo: u32, hi: u32) -> bool
    requires { hi ≤ length rows.now }
    ensures { result ≡ falls_into rows.now lo hi }
{
    if lo == 0 {
        return false;
    }
    if hi <= lo {
        return false;
    }
    rows[lo as usize] <= rows[lo as usize - 1]
}

// Whether one of the first few columns has a second row that is not above its first.
fn any_opens_falling(mat: &SparseMat, few: u32) -> bool
    requires { few ≤ mat.now.size }
    ensures { result ≡ some (opens_falling mat.now.starts.now mat.now.rows.now) few }
{
    let SparseMat { starts, rows, .. } = *mat;
    let mut found = false;
    for c in 0..few as usize {
        found |= falls_into(rows, starts[c] + 1, starts[c + 1]);
    }
    found
}

// How many of the places below last have a row that the next one is not above, whatever their columns: it reads no start, so that
// several rows are compared at once.
fn count_row_falls(rows: &[u32], last: u32) -> u32
    requires { (last < length rows.now) × (last ≤ max_entries) }
    ensures { result ≡ count (row_falls_at rows.now) last }
{
    let mut falls = 0u32;
    for k in 0..last as usize {
        falls += u32::from(rows[k + 1] <= rows[k]);
    }
    falls
}

// How many columns have a first row that is not above the last row before it.
fn count_falls_between(mat: &SparseMat) -> u32
    ensures { result ≡ count (enters_falling mat.now.starts.now mat.now.rows.now) mat.now.size }
{
    let SparseMat { size, starts, rows } = *mat;
    let mut falls = 0u32;
    for c in 0..size as usize {
        falls += u32::from(falls_into(rows, starts[c], starts[c + 1]));
    }
    falls
}

// Whether the rows of each column are found to rise, so that none repeats one: then every fall is between two columns. A look at
// the first few columns saves the two counts where the rows are in no order.
fn all_rise(mat: &SparseMat) -> bool
    ensures { result ≡ true → (k : ℕ) → k < length mat.now.rows.now
        → repeats_at mat.now.size mat.now.starts.now mat.now.rows.now k ≡ false }
{
    if mat.rows.is_empty() || any_opens_falling(mat, mat.size.min(16)) {
        return false;
    }
    count_row_falls(mat.rows, mat.rows.len() as u32 - 1) == count_falls_between(mat)
}

// Refusal 4, with marks for the rows that are zero, and are zero again afterwards. Nearly every input passes: where the rows of each
// column rise no mark is needed to find that, and else a count finds it sooner than a search that may stop at each row; the place is
// looked for only where there is one.
pub fn check_repeats(mat: &SquareMat, marks: &mut [u32]) -> Result<(), Refusal>
    requires { (mat.now.mat.size ≤ length marks.old) × ZeroBelow mat.now.mat.size marks.old }
    ensures value { result ≡ repeated_row mat.now.mat.size mat.now.mat.starts.now mat.now.mat.rows.now }
    ensures marks_unchanged { marks.new ≡ marks.old }
{
    if all_rise(&mat.mat) {
        return Ok(());
    }
    if count_repeats(mat, marks) == 0 {
        return Ok(());
    }
    match first_repeat(mat, marks) {
        Some(k) => Err(Refusal::RepeatedRow(k)),
        None => Ok(()),
    }
}

// Refusal 8.
pub fn check_columns(size: u32, starts: &[u32]) -> Result<(), Refusal>
    requires { length starts.now ≡ size + 1 }
    ensures { result ≡ empty_column size starts.now }
{
    refused_below(
        size,
        |c| starts[c as usize + 1] <= starts[c as usize],
        |c| Refusal::EmptyColumn(Column(c)),
    )
}
