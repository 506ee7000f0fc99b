ghost use Rattle.std.specs.Prelude.{◌≡◌, ◌<◌, ◌+◌, ◌^◌, ◌≤ℤ◌, ◌<ℤ◌, ◌+ℤ◌, ◌-ℤ◌, negsuc, pos};
ghost use Rattle.rv_form.specs.Numbers.{far_part, near_part};

/// The distance from an address to what lies `add` behind another.
pub fn distance(target: u64, add: i64, at: u64) -> i64
    requires target { target < 2 ^ 30 + 2 ^ 29 }
    requires add { (negsuc 4095 ≤ℤ add) × (add ≤ℤ pos 4096) }
    requires at { at < 2 ^ 29 }
    ensures { result ≡ pos target +ℤ add -ℤ pos at }
{
    target as i64 + add - at as i64
}

/// The far part of a distance, in units of 4,096 bytes.
pub fn far_of(distance: i64) -> i32
    requires { (negsuc 0x7fff_f7ff ≤ℤ distance) × (distance <ℤ pos 0x7fff_f800) }
    ensures { result ≡ far_part distance }
{
    (distance + 2048).div_euclid(4096) as i32
}

/// The near part of a distance, from -2,048 to 2,047.
pub fn near_of(distance: i64) -> i32
    ensures { result ≡ near_part distance }
{
    let low = distance.rem_euclid(4096) as i32;
    if low < 2048 { low } else { low - 4096 }
}
