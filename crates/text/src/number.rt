// One field of a line: a decimal number and the byte that closes it.
ghost use Rattle.std.specs.Prelude.{◌≡◌, ◌≤◌, length, IfSome};
ghost use Rattle.text.specs.Number.{closes, continues, numeral};

// A number that was read: its value, how many bytes it takes with its close, and the byte that closes it.
#[derive(Clone, Copy, PartialEq, Eq, Debug)]
pub struct Field {
    pub number: u32,
    // A length and not the rest of the text: the place of the next field in its line is counted with it.
    pub len: usize,
    // The byte itself, which is compared with the one that is due.
    pub close: u8,
}

// Whether a byte closes a field: a space, or a line's end.
fn is_close(b: u8) -> bool
    ensures { result ≡ closes b }
{
    matches!(b, b' ' | b'\n')
}

// Whether byte `b` continues a number of which `digits` digits, worth `value`, are read.
fn continues_number(digits: usize, value: u32, b: u8) -> bool
    ensures { result ≡ continues digits value b }
{
    b.is_ascii_digit() && digits < 6 && (digits == 0 || value > 0)
}

// The field at the front of `rest`, or nothing where it is at fault.
pub(crate) fn scan_number(rest: &[u8]) -> Option<Field>
    ensures reads { result ≡ numeral 0 0 rest.now }
    ensures within { IfSome result (λ f. f.len ≤ length rest.now) }
    ensures short { IfSome result (λ f. f.len ≤ 7) }
{
    let mut number: u32 = 0;
    for (digits, &b) in rest.iter().enumerate() {
        if is_close(b) {
            return (digits > 0).then_some(Field {
                number,
                len: digits + 1,
                close: b,
            });
        }
        if !continues_number(digits, number, b) {
            return None;
        }
        number = number * 10 + u32::from(b - b'0');
    }
    None
}
