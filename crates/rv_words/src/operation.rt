//! What the instructions compute of words, as `rv_form` says it in `specs/Arithmetic` and `specs/Numbers`.
ghost use Rattle.std.specs.Prelude.{◌≡◌, ◌<◌, ◌≤◌, ◌*◌, ◌^◌, ◌*ℤ◌, ◌/◌, ◌%◌, ℤ, pos};
ghost use Rattle.rv_form.specs.Numbers.{add as sum_of, extended as extended_of, floor, word as word_of};
ghost use Rattle.rv_form.specs.Machine.{even as even_of};
ghost use Rattle.rv_form.specs.Arithmetic.{integer, high_product};
ghost use Rattle.rv_form.specs.Arithmetic as arithmetic;

/// The word of a signed number.
#[inline(always)]
pub fn word(imm: i32) -> u64
    ensures { result ≡ word_of imm }
{
    i64::from(imm).cast_unsigned()
}

/// The word of 4,096 times a number.
#[inline(always)]
pub fn upper(imm: i32) -> u64
    ensures { result ≡ word_of (pos 4096 *ℤ imm) }
{
    (4096 * i64::from(imm)).cast_unsigned()
}

#[inline(always)]
pub fn add(a: u64, b: u64) -> u64
    ensures { result ≡ sum_of a b }
{
    a.wrapping_add(b)
}

#[inline(always)]
pub fn sub(a: u64, b: u64) -> u64
    ensures { result ≡ arithmetic.sub a b }
{
    a.wrapping_sub(b)
}

#[inline(always)]
pub fn mul(a: u64, b: u64) -> u64
    ensures { result ≡ arithmetic.mul a b }
{
    a.wrapping_mul(b)
}

/// The even number at or below one.
#[inline(always)]
pub fn even(a: u64) -> u64
    ensures { result ≡ even_of a }
{
    a - a % 2
}

/// A number below `2 * half`, with its sign extended to a word.
#[inline(always)]
pub fn extended(half: u64, n: u64) -> u64
    requires half { half ≤ 2 ^ 63 }
    requires number { n < 2 * half }
    ensures { result ≡ extended_of half n }
{
    if n < half {
        n
    } else {
        n.wrapping_sub(half).wrapping_sub(half)
    }
}

#[inline(always)]
pub fn low_half(a: u64) -> u64
    ensures { result ≡ arithmetic.low_half a }
{
    a % 0x1_0000_0000
}

/// The low 32 bits, with their sign extended to a word.
#[inline(always)]
pub fn narrow(a: u64) -> u64
    ensures { result ≡ arithmetic.narrow a }
{
    i64::from((low_half(a) as u32).cast_signed()).cast_unsigned()
}

#[inline(always)]
pub fn flag(answer: bool) -> u64
    ensures { result ≡ arithmetic.flag answer }
{
    u64::from(answer)
}

/// Whether the first is less, of words as signed numbers.
#[inline(always)]
pub fn less(a: u64, b: u64) -> bool
    ensures { result ≡ arithmetic.less a b }
{
    a.cast_signed() < b.cast_signed()
}

#[inline(always)]
pub fn shift_left(a: u64, amount: u64) -> u64
    ensures { result ≡ arithmetic.shift_left a amount }
{
    a << (amount % 64)
}

#[inline(always)]
pub fn shift_right(a: u64, amount: u64) -> u64
    ensures { result ≡ arithmetic.shift_right a amount }
{
    a >> (amount % 64)
}

#[inline(always)]
pub fn shift_signed(a: u64, amount: u64) -> u64
    ensures { result ≡ arithmetic.shift_signed a amount }
{
    (a.cast_signed() >> (amount % 64)).cast_unsigned()
}

#[inline(always)]
pub fn sllw(a: u64, amount: u64) -> u64
    ensures { result ≡ arithmetic.shift_left_narrow a amount }
{
    narrow(shift_left(a, amount % 32))
}

#[inline(always)]
pub fn srlw(a: u64, amount: u64) -> u64
    ensures { result ≡ arithmetic.shift_right_narrow a amount }
{
    narrow(shift_right(low_half(a), amount % 32))
}

#[inline(always)]
pub fn sraw(a: u64, amount: u64) -> u64
    ensures { result ≡ arithmetic.shift_signed_narrow a amount }
{
    narrow(shift_signed(narrow(a), amount % 32))
}

/// The high 64 bits of the product, with both operands signed.
#[inline(always)]
pub fn high_signed(a: u64, b: u64) -> u64
    ensures { result ≡ high_product (integer a) (integer b) }
{
    high_half(i128::from(a.cast_signed()) * i128::from(b.cast_signed()))
}

/// The high 64 bits of the product, with the first operand signed.
#[inline(always)]
pub fn high_mixed(a: u64, b: u64) -> u64
    ensures { result ≡ high_product (integer a) (pos b) }
{
    high_half(i128::from(a.cast_signed()) * i128::from(b))
}

/// The high 64 bits of the product of the words as they are.
#[inline(always)]
pub fn high_unsigned(a: u64, b: u64) -> u64
    ensures { result ≡ high_product (pos a) (pos b) }
{
    (u128::from(a) * u128::from(b) / 0x1_0000_0000_0000_0000) as u64
}

/// The high half of a product, from bit 64 on.
#[inline(always)]
fn high_half(product: i128) -> u64
    ensures { result ≡ word_of (floor product (2 ^ 64)) }
{
    (product.cast_unsigned() / 0x1_0000_0000_0000_0000) as u64
}

#[inline(always)]
pub fn div(a: u64, b: u64) -> u64
    ensures { result ≡ arithmetic.divide a b }
{
    if b == 0 {
        u64::MAX
    } else {
        a.cast_signed()
            .wrapping_div(b.cast_signed())
            .cast_unsigned()
    }
}

#[inline(always)]
pub fn rem(a: u64, b: u64) -> u64
    ensures { result ≡ arithmetic.remainder a b }
{
    if b == 0 {
        a
    } else {
        a.cast_signed()
            .wrapping_rem(b.cast_signed())
            .cast_unsigned()
    }
}

#[inline(always)]
pub fn divu(a: u64, b: u64) -> u64
    ensures { result ≡ arithmetic.divide_unsigned a b }
{
    if b == 0 { u64::MAX } else { a / b }
}

#[inline(always)]
pub fn remu(a: u64, b: u64) -> u64
    ensures { result ≡ arithmetic.remainder_unsigned a b }
{
    if b == 0 { a } else { a % b }
}

/// The quotients and remainders of the low 32 bits.
#[inline(always)]
pub fn divw(a: u64, b: u64) -> u64
    ensures { result ≡ arithmetic.narrow (arithmetic.divide (arithmetic.narrow a) (arithmetic.narrow b)) }
{
    narrow(div(narrow(a), narrow(b)))
}

#[inline(always)]
pub fn divuw(a: u64, b: u64) -> u64
    ensures { result ≡ arithmetic.narrow (arithmetic.divide_unsigned (arithmetic.low_half a) (arithmetic.low_half b)) }
{
    narrow(divu(low_half(a), low_half(b)))
}

#[inline(always)]
pub fn remw(a: u64, b: u64) -> u64
    ensures { result ≡ arithmetic.narrow (arithmetic.remainder (arithmetic.narrow a) (arithmetic.narrow b)) }
{
    narrow(rem(narrow(a), narrow(b)))
}

#[inline(always)]
pub fn remuw(a: u64, b: u64) -> u64
    ensures { result ≡ arithmetic.narrow (arithmetic.remainder_unsigned (arithmetic.low_half a) (arithmetic.low_half b)) }
{
    narrow(remu(low_half(a), low_half(b)))
}
