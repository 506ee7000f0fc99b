ghost use Rattle.std.specs.Prelude.{◌≡◌, ◌<◌, ◌≤◌, ◌+◌, ◌*◌, IsTrue, length, ℕ, pos, neg_ℤ};
ghost use Rattle.std.specs.Option.{option_map};
ghost use Rattle.datum_form.specs.Words.{digit, digits, signed, has_radix, radix_of, after_radix, after_exact, number};
ghost use Rattle.datum_reader.specs.Numbers.{bounded, numeral_of};

/// One more than the greatest value that matters: a sum that is greater stays here.
const BEYOND: u64 = 2_305_843_009_213_693_953;

/// What a run is as a number.
#[derive(Clone, Copy, Debug)]
pub(crate) enum Numeral {
    NoNumber,
    /// A number that is not from -2^61 to 2^61 - 1.
    OutOfRange,
    Value(i64),
}

/// What a byte counts as a digit, 16 where it is none.
fn digit(byte: u8) -> u8
    ensures { result ≡ digit byte }
{
    match byte {
        b'0'..=b'9' => byte - b'0',
        b'a'..=b'f' => byte - b'a' + 10,
        _ => 16,
    }
}

/// The value with one digit more.
fn with_digit(radix: u8, value: u64, digit: u8) -> u64
    requires radix { radix ≤ 16 }
    requires digit { digit < radix }
    requires value { value ≤ 2305843009213693953 }
    ensures { result ≡ bounded (value * radix + digit) }
{
    let next = value as u128 * radix as u128 + digit as u128;
    if next < BEYOND as u128 {
        next as u64
    } else {
        BEYOND
    }
}

/// The value of at least one digit of a radix.
fn digits(radix: u8, text: &[u8]) -> Option<u64>
    requires some { 0 < radix }
    requires few { radix ≤ 16 }
    ensures { result ≡ option_map bounded (digits radix text.now) }
{
    if text.is_empty() {
        return None;
    }
    let mut value = 0;
    let mut rest = text;
    while let Some((first, others)) = rest.split_first() {
        let next = digit(*first);
        if next >= radix {
            return None;
        }
        value = with_digit(radix, value, next);
        rest = others;
    }
    Some(value)
}

fn positive(radix: u8, text: &[u8]) -> Numeral
    requires some { 0 < radix }
    requires few { radix ≤ 16 }
    ensures { result ≡ numeral_of (option_map pos (digits radix text.now)) }
{
    match digits(radix, text) {
        None => Numeral::NoNumber,
        Some(value) if value < BEYOND - 1 => Numeral::Value(value as i64),
        Some(_) => Numeral::OutOfRange,
    }
}

fn negative(radix: u8, text: &[u8]) -> Numeral
    requires some { 0 < radix }
    requires few { radix ≤ 16 }
    ensures { result ≡ numeral_of (option_map (λ n. neg_ℤ (pos n)) (digits radix text.now)) }
{
    match digits(radix, text) {
        None => Numeral::NoNumber,
        Some(value) if value < BEYOND => Numeral::Value(-(value as i64)),
        Some(_) => Numeral::OutOfRange,
    }
}

fn signed(radix: u8, text: &[u8]) -> Numeral
    requires some { 0 < radix }
    requires few { radix ≤ 16 }
    ensures { result ≡ numeral_of (signed radix text.now) }
{
    if text.starts_with(b"-") {
        negative(radix, &text[1..])
    } else if text.starts_with(b"+") {
        positive(radix, &text[1..])
    } else {
        positive(radix, text)
    }
}

fn has_radix(text: &[u8]) -> bool
    ensures value { result ≡ has_radix text.now }
    ensures bound { IsTrue result → 2 ≤ length text.now }
{
    text.starts_with(b"#b")
        || text.starts_with(b"#o")
        || text.starts_with(b"#d")
        || text.starts_with(b"#x")
}

/// The radix that a text begins with, or else ten.
fn radix_of(text: &[u8]) -> u8
    ensures value { result ≡ radix_of text.now }
    ensures some { 0 < result }
    ensures few { result ≤ 16 }
{
    if text.starts_with(b"#b") {
        2
    } else if text.starts_with(b"#o") {
        8
    } else if text.starts_with(b"#x") {
        16
    } else {
        10
    }
}

fn after_radix(text: &[u8]) -> &[u8]
    ensures { result.now ≡ after_radix text.now }
{
    if has_radix(text) { &text[2..] } else { text }
}

fn after_exact(text: &[u8]) -> &[u8]
    ensures { result.now ≡ after_exact text.now }
{
    if text.starts_with(b"#e") {
        &text[2..]
    } else {
        text
    }
}

/// What a run in small letters is as a number.
pub(crate) fn number(text: &[u8]) -> Numeral
    ensures { result ≡ numeral_of (number text.now) }
{
    if text.starts_with(b"#e") {
        let rest = &text[2..];
        signed(radix_of(rest), after_radix(rest))
    } else {
        signed(radix_of(text), after_exact(after_radix(text)))
    }
}
