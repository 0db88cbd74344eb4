// Sixteen bytes and their text, lane by lane.
ghost use Rattle.std.specs.Prelude.{◌≡◌, ◌↔◌, true, map, slice_index};
ghost use Rattle.std.specs.Simd.Lanes.{Each2};
ghost use Rattle.hex.specs.Hex.{encode_lower, lower_digits};
ghost use Rattle.hex_lanes.specs.Halves.{AreHalves, IsRead, joined};

use std::simd::prelude::*;

const DIGITS: [u8; 16] = *b"0123456789abcdef";

// What lies as far below a digit `a`, less one, as ten lies above nought.
const BELOW_TEN: u8 = b'a' - 1 - 10;

// The digit of each half byte.
#[inline(always)]
fn digits_of(halves: u8x16) -> u8x16
    requires { AreHalves halves }
    ensures { result ≡ map (λ half. slice_index lower_digits half) halves }
{
    u8x16::from_array(DIGITS).swizzle_dyn(halves)
}

// The text of the bytes.
#[inline(always)]
pub(crate) fn text_of(bytes: u8x16) -> u8x32
    ensures { result ≡ encode_lower bytes }
{
    let high = digits_of(bytes >> 4);
    let low = digits_of(bytes & u8x16::splat(0x0f));
    high.shuffle(
        low,
        [
            0, 16, 1, 17, 2, 18, 3, 19, 4, 20, 5, 21, 6, 22, 7, 23, 8, 24, 9, 25, 10, 26, 11, 27,
            12, 28, 13, 29, 14, 30, 15, 31,
        ],
    )
}

// The half byte that each digit of either case stands for, and a greater number for any other byte.
#[inline(always)]
pub(crate) fn halves_of(text: u8x32) -> u8x32
    ensures { Each2 IsRead text result }
{
    let figure = text - u8x32::splat(b'0');
    let letter = ((text - u8x32::splat(1)) | u8x32::splat(0x20)) - u8x32::splat(BELOW_TEN);
    figure.simd_lt(u8x32::splat(10)).select(figure, letter)
}

#[inline(always)]
pub(crate) fn are_halves(halves: u8x32) -> bool
    ensures { (result ≡ true) ↔ AreHalves halves }
{
    halves.simd_lt(u8x32::splat(16)).all()
}

// The bytes of these halves, the high half of each first.
#[inline(always)]
pub(crate) fn bytes_of(halves: u8x32) -> u8x16
    requires { AreHalves halves }
    ensures { result ≡ joined halves }
{
    let high = halves.swizzle([0, 2, 4, 6, 8, 10, 12, 14, 16, 18, 20, 22, 24, 26, 28, 30]);
    let low = halves.swizzle([1, 3, 5, 7, 9, 11, 13, 15, 17, 19, 21, 23, 25, 27, 29, 31]);
    (high << 4) + low
}
