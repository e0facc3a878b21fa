//! Reads one number in digits of a base.

ghost use Rattle.std.specs.Prelude.{◌≡◌, ℕ, ◌+◌, ◌*◌, ◌<◌, ◌≤◌, List, [], ◌∷◌, ◌++◌, IfOk, IfErr, IsTrue, None, Some, SomeIff};
ghost use Rattle.std.specs.Char.{digit_value};
ghost use Rattle.epic_num.specs.Names.{Writes, is_digit_of, numeral_of, within};
ghost use Rattle.epic_num.specs.Spellings.{IsMisspelt};

/// Reads a number in digits of the base, from `least` to `most`. An error is the length of the longest front that begins
/// such a number.
pub(crate) fn numeral(text: &[u8], base: u64, least: u64, most: u64) -> Result<u64, usize>
    requires least_base { 2 ≤ base }
    requires most_base { base ≤ 16 }
    requires least { least ≤ 1 }
    requires order { least ≤ most }
    ensures ok { IfOk result (λ n. within least most (numeral_of base text.now) ≡ Some n) }
    ensures most { IfOk result (λ n. n ≤ most) }
    ensures err { IfErr result (IsMisspelt (λ t. within least most (numeral_of base t)) text.now) }
{
    let mut front = None;
    for (i, c) in text.iter().enumerate() {
        match extended(front, *c, base, least, most) {
            Some(value) => front = Some(value),
            None => return Err(i),
        }
    }
    front.ok_or(text.len())
}

/// What a front that writes the number `front`, or none yet, writes with one byte more.
fn extended(front: Option<u64>, c: u8, base: u64, least: u64, most: u64) -> Option<u64>
    requires least_base { 2 ≤ base }
    requires most_base { base ≤ 16 }
    requires least { least ≤ 1 }
    ensures { (text : List ℕ) → Writes base least most text front
        → within least most (numeral_of base (text ++ (c ∷ []))) ≡ result }
{
    match front {
        None => with_digit(0, base, c, least, most),
        // No digit follows a zero in front.
        Some(0) => None,
        Some(value) => with_digit(value, base, c, least, most),
    }
}

/// The number whose last digit is `c` and whose other digits write `front`, if it is in the bounds.
fn with_digit(front: u64, base: u64, c: u8, least: u64, most: u64) -> Option<u64>
    requires { base ≤ 16 }
    ensures { let n = front * base + digit_value c in
        SomeIff result (IsTrue (is_digit_of base c) × (least ≤ n) × (n ≤ most)) n }
{
    let digit = match c {
        b'0'..=b'9' => c - b'0',
        b'a'..=b'z' => c - b'a' + 10,
        _ => return None,
    };
    let digit = u64::from(digit);
    if digit >= base {
        return None;
    }
    let value = front.checked_mul(base)?.checked_add(digit)?;
    if least <= value && value <= most {
        Some(value)
    } else {
        None
    }
}
