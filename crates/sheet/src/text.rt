// Bytes cut at a separator, and numbers in base ten.
ghost use Rattle.std.specs.Prelude.{◌≡◌, ◌≤◌, ◌==◌, cond, length, Some, None, MatchOption};
ghost use Rattle.std.specs.List.{position};
ghost use Rattle.std.specs.Str.{all_ascii_digits};
ghost use Rattle.sheet.specs.Text.{cut as cut_of, number as number_of, value as value_of};

// The place of the first byte `sep`.
fn place(bytes: &[u8], sep: u8) -> Option<usize>
    ensures { result ≡ position (λ b. b == sep) bytes.now }
{
    bytes.iter().position(|b| *b == sep)
}

// What stands before the first byte `sep`, and what stands after it; none where there is no such byte.
pub fn cut(bytes: &[u8], sep: u8) -> Option<(&[u8], &[u8])>
    ensures { MatchOption result (cut_of sep bytes.now ≡ None) (λ p. cut_of sep bytes.now ≡ Some (p.0.now, p.1.now)) }
{
    let at = place(bytes, sep)?;
    Some((&bytes[..at], &bytes[at + 1..]))
}

// The number that at most 9 digits stand for; none where a byte is no digit.
#[tactic(auto, using(crate::proofs::Digits::ten_few))]
fn value(digits: &[u8]) -> Option<u32>
    requires { length digits.now ≤ 9 }
    ensures { result ≡ cond (all_ascii_digits digits.now) (Some (value_of digits.now)) None }
{
    let mut value = 0;
    for b in digits {
        if !b.is_ascii_digit() {
            return None;
        }
        value = value * 10 + u32::from(*b - b'0');
    }
    Some(value)
}

// The number that 1 to 9 digits stand for, the first of several not 0; none for any other bytes.
pub fn number(item: &[u8]) -> Option<u32>
    ensures { result ≡ number_of item.now }
{
    match item {
        [] | [b'0', _, ..] => None,
        _ if item.len() > 9 => None,
        _ => value(item),
    }
}
