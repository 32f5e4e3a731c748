// Numbers in decimal, hexadecimal and octal digits. A contract says by a definition of `spec` that the answer is the number that the
// documents say. Any bytes may be given.
#![tactic(auto)]

ghost use Rattle.std.specs.Prelude.{◌≡◌, ◌≤◌, ◌<◌, ◌^◌, IfSome};
ghost use Rattle.spec.specs.Digits.{digits, hex_digit, hex_run, octal_run};
ghost use Rattle.numbers.specs.Answers.{octal_of};

/// The value of `text` in decimal digits, at most `limit`. Leading zeros are allowed, in any number.
#[tactic(auto, using(crate::proofs::Numbers::decimals))]
pub fn digits(text: &[u8], limit: u64) -> Option<u64>
    ensures { result ≡ digits limit text.now }
{
    if text.is_empty() {
        return None;
    }
    let mut value: u64 = 0;
    for &b in text {
        if !b.is_ascii_digit() {
            return None;
        }
        let d = u64::from(b - b'0');
        value = value.checked_mul(10)?.checked_add(d)?;
        if value > limit {
            return None;
        }
    }
    Some(value)
}

/// The value of one hexadecimal digit, by arithmetic on its code: the low four bits, and 9 more for a letter, whose code has a 64 in it.
/// The byte is a digit if it is the code of this value again, a letter taken in lower case, which is the bit 32. From 10 on the codes are
/// 39 further than `0` and the value: `a` to `f`.
// Kept: document 02 (W-203) asks for arithmetic on the code, with no branch or match arm for each kind of digit.
#[tactic(auto, using(crate::proofs::Numbers::by_code_lem))]
pub fn hex_digit(b: u8) -> Option<u64>
    ensures value { result ≡ hex_digit b }
    ensures small { IfSome result (λ d. d < 16) }
{
    let letter = b / 64;
    let value = (b % 16 + 9 * letter) % 16;
    let code = b'0' + value + 39 * (value / 10);
    (b | 32 * letter == code).then_some(u64::from(value))
}

/// The value of `count` hexadecimal digits, at most eight, at the start of `text`.
#[tactic(auto, using(crate::proofs::Numbers::hexes))]
pub fn hex_run(text: &[u8], count: usize) -> Option<u64>
    requires { count ≤ 8 }
    ensures value { result ≡ hex_run count text.now }
    ensures small { IfSome result (λ v. v < 16 ^ count) }
{
    let mut value: u64 = 0;
    for &b in text.get(..count)? {
        value = value * 16 + hex_digit(b)?;
    }
    Some(value)
}

/// A number in octal digits, and how many digits it has.
#[derive(Clone, Copy)]
pub struct Octal {
    pub value: u32,
    pub count: usize,
}

/// The octal digits at the start of `text`, as many as there are, but no more than `most`, which is at most three.
#[tactic(auto, using(crate::proofs::Numbers::octals))]
pub fn octal_run(text: &[u8], most: usize) -> Octal
    requires { most ≤ 3 }
    ensures { octal_of result ≡ octal_run most text.now }
{
    let end = most.min(text.len());
    let mut value: u32 = 0;
    for (count, &b) in text[..end].iter().enumerate() {
        match b {
            b'0'..=b'7' => value = value * 8 + u32::from(b - b'0'),
            _ => return Octal { value, count },
        }
    }
    Octal { value, count: end }
}
