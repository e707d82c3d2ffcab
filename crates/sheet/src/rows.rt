// Records as lines of numbers.
ghost use Rattle.std.specs.Prelude.{◌≡◌, ℕ, ◌<◌, ◌≤◌, List};
ghost use Rattle.text.specs.declared.limits.Limits.{Limits};
ghost use Rattle.sheet.specs.Fields.{close_at};
ghost use Rattle.sheet.specs.Format.{Format, Sized};

use text::limits::Limits;

// A record that stands on one line of a sheet: N numbers, each within its limits.
pub trait Row<const N: usize>: Copy {
    ghost LIMITS: { List Limits };

    ghost MOST: { ℕ };

    ghost make: { List ℕ → Self };

    ghost numbers: { Self → List ℕ };

    // The limits of its numbers, in their order on the line.
    const LIMITS: [Limits; N];

    // The most lines that its section has.
    const MOST: u32;

    // The record of these numbers. No `From`: most records are of other crates, so it cannot be written for them here.
    fn from_numbers(fields: &[u32; N]) -> Self
        ensures { result ≡ make fields.now };

    // Its numbers, in their order on the line.
    fn numbers(&self) -> [u32; N]
        ensures { result ≡ numbers self.now };

    // What each `impl` must prove.
    ghost few: { N ≤ 5 };

    ghost fits: { MOST ≤ 64 };

    ghost format: { Format LIMITS make numbers };

    ghost sized: { Sized N LIMITS numbers };
}

// The byte that closes field `j` of a line of `fields` fields: a space, or the line's end after the last one.
pub(crate) fn close_after(fields: usize, j: usize) -> u8
    requires { j < fields }
    ensures { result ≡ close_at fields j }
{
    if j + 1 < fields { b' ' } else { b'\n' }
}
