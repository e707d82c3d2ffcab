// The eight windows of the host reserve.
ghost use Rattle.std.specs.Prelude.{◌≡◌, true, length};
ghost use Rattle.reserve.specs.Reserve.{table_fits};

use crate::Window;

// Unused windows are all 0.
#[derive(Clone, Copy)]
pub(crate) struct WindowTable {
    pub(crate) rows: [Window; 8],
    ghost sized: { length rows ≡ 8 },
    ghost fit: { table_fits rows ≡ true },
}
