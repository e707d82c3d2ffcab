// Whether records have their numbers within the limits, and sections no more lines than they may have.
ghost use Rattle.std.specs.Prelude.{◌≡◌, length, nat_lt};
ghost use Rattle.std.specs.List.{list_all};
ghost use Rattle.sheet.specs.Fields.{fits};

use crate::rows::Row;

// Whether each number of `row` stands within its limits.
pub(crate) fn row_fits<const N: usize, R: Row<N>>(row: &R) -> bool
    ensures { result ≡ fits R.Row.LIMITS (R.Row.numbers row.now) }
{
    R::LIMITS
        .iter()
        .zip(&row.numbers())
        .all(|(limits, n)| limits.fits(*n))
}

// Whether each number of each row stands within its limits.
pub(crate) fn rows_fit<const N: usize, R: Row<N>>(rows: &[R]) -> bool
    ensures { result ≡ list_all (λ x. fits R.Row.LIMITS (R.Row.numbers x)) rows.now }
{
    rows.iter().all(row_fits)
}

// Whether these are more rows than their section may have lines.
pub(crate) fn exceed_section<const N: usize, R: Row<N>>(rows: &[R]) -> bool
    ensures { result ≡ nat_lt R.Row.MOST (length rows.now) }
{
    rows.len() > R::MOST as usize
}

// Whether `list` has too little room for a section with all the lines that it may have.
pub(crate) fn lacks_room<const N: usize, R: Row<N>>(list: &[R]) -> bool
    ensures { result ≡ nat_lt (length list.now) R.Row.MOST }
{
    list.len() < R::MOST as usize
}
