ghost use Rattle.std.specs.Prelude.{◌≡◌, ◌+◌, ◌≤◌, length};

use super::*;
use Bit::{HighZ, One, Unknown, Zero};

const TOP_64: u128 = 1 << 63;

const ONES_64: u128 = (1 << 64) - 1;

const TOP_65: u128 = 1 << 64;

const TOP_127: u128 = 1 << 126;

const ONES_127: u128 = u128::MAX >> 1;

const TOP_128: u128 = 1 << 127;

// The helpers below say no more than widths, so that the tests don't carry the contracts of what they call.

// The vector of a number.
fn number(n: u128, width: u8) -> Vec4
    requires least { 1 ≤ width }
    requires most { width ≤ 128 }
    ensures { length result ≡ width }
{
    Vec4::from_planes(n, 0, width)
}

// The sum, the difference and the product.
fn combined(left: Vec4, right: Vec4) -> (Vec4, Vec4, Vec4)
    requires { length left ≡ length right }
{
    (add(left, right), sub(left, right), mul(left, right))
}

// The quotient and the remainder.
fn divided_unsigned(left: Vec4, right: Vec4) -> (Vec4, Vec4)
    requires { length left ≡ length right }
{
    (div_u(left, right), rem_u(left, right))
}

// The signed quotient and the signed remainder.
fn divided_signed(left: Vec4, right: Vec4) -> (Vec4, Vec4)
    requires { length left ≡ length right }
{
    (div_s(left, right), rem_s(left, right))
}

// `<` of the numbers and of the signed numbers.
fn compared(left: Vec4, right: Vec4) -> (Bit, Bit)
    requires { length left ≡ length right }
{
    (lt_u(left, right), lt_s(left, right))
}

// `<<`, `>>` and `>>>`.
fn shifted(v: Vec4, count: u64) -> (Vec4, Vec4, Vec4) {
    (shl(v, count), shr(v, count), sar(v, count))
}

fn raised(left: Vec4, right: Vec4) -> Vec4 {
    pow_u(left, right)
}

fn negated(v: Vec4) -> Vec4 {
    neg(v)
}

fn logarithm(v: Vec4) -> Vec4 {
    clog2(v)
}

// `one` with another bit at a place.
fn replaced(one: Vec4, place: u8, bit: Bit) -> Vec4
    requires { place + 1 ≤ length one }
    ensures { length result ≡ length one }
{
    one.with_bit(place, bit)
}

#[test]
fn adds_and_multiplies(rt: HostRuntime) {
    // The width, the operands, and their sum, difference and product.
    for (width, x, y, sum, difference, product) in [
        (1, 1, 1, 0, 0, 1),
        (1, 0, 1, 1, 1, 0),
        (2, 2, 3, 1, 3, 2),
        (2, 3, 2, 1, 1, 2),
        (64, TOP_64, ONES_64, TOP_64 - 1, TOP_64 + 1, TOP_64),
        (65, TOP_65 + 5, 3, TOP_65 + 8, TOP_65 + 2, TOP_65 + 15),
        (127, TOP_127, ONES_127, TOP_127 - 1, TOP_127 + 1, TOP_127),
        (128, TOP_128, u128::MAX, TOP_128 - 1, TOP_128 + 1, TOP_128),
        (128, u128::MAX - 6, 9, 2, u128::MAX - 15, u128::MAX - 62),
    ] {
        assert!(rt; 1 <= width && width <= 128);
        let results = combined(number(x, width), number(y, width));
        assert_eq!(rt; results.0, number(sum, width), "{x} + {y}");
        assert_eq!(rt; results.1, number(difference, width), "{x} - {y}");
        assert_eq!(rt; results.2, number(product, width), "{x} * {y}");
    }
}

#[test]
fn negates(rt: HostRuntime) {
    for (width, x, opposite) in [
        (1, 1, 1),
        (2, 2, 2),
        (2, 3, 1),
        (64, 0, 0),
        (65, TOP_65 + 5, TOP_65 - 5),
        (127, TOP_127, TOP_127),
        (128, 7, u128::MAX - 6),
    ] {
        assert!(rt; 1 <= width && width <= 128);
        assert_eq!(rt; negated(number(x, width)), number(opposite, width), "-{x}");
    }
}

#[test]
fn divides(rt: HostRuntime) {
    // The width, the operands, quotient and remainder, and signed quotient and remainder.
    for (width, x, y, quotient, remainder, signed_quotient, signed_remainder) in [
        (1, 1, 1, 1, 0, 1, 0),
        (2, 2, 3, 0, 2, 2, 0),
        (8, 0xf9, 2, 0x7c, 1, 0xfd, 0xff),
        (8, 7, 0xfe, 0, 7, 0xfd, 1),
        (8, 0xf9, 0xfe, 0, 0xf9, 3, 0xff),
        (64, TOP_64, ONES_64, 0, TOP_64, TOP_64, 0),
        (65, TOP_65, 2, TOP_64, 0, TOP_65 + TOP_64, 0),
        (127, TOP_127, ONES_127, 0, TOP_127, TOP_127, 0),
        (128, TOP_128, u128::MAX, 0, TOP_128, TOP_128, 0),
        (128, u128::MAX, 2, ONES_127, 1, 0, u128::MAX),
    ] {
        assert!(rt; 1 <= width && width <= 128);
        let (left, right) = (number(x, width), number(y, width));
        let results = divided_unsigned(left, right);
        assert_eq!(rt; results.0, number(quotient, width), "{x} / {y}");
        assert_eq!(rt; results.1, number(remainder, width), "{x} % {y}");
        let results = divided_signed(left, right);
        assert_eq!(rt;
            results.0,
            number(signed_quotient, width),
            "signed {x} / {y}"
        );
        assert_eq!(rt;
            results.1,
            number(signed_remainder, width),
            "signed {x} % {y}"
        );
    }
}

#[test]
fn gives_x(rt: HostRuntime) {
    for width in [1, 2, 64, 65, 127, 128] {
        assert!(rt; 1 <= width && width <= 128);
        let (one, unknown) = (number(1, width), Vec4::splat(Unknown, width));
        let zero = number(0, width);
        assert_eq!(rt; divided_unsigned(one, zero), (unknown, unknown));
        assert_eq!(rt; divided_signed(one, zero), (unknown, unknown));
        for (place, bit) in [
            (width - 1, Unknown),
            (width - 1, HighZ),
            (0, Unknown),
            (0, HighZ),
        ] {
            assert!(rt; place < width);
            let odd = replaced(one, place, bit);
            assert_eq!(rt; negated(odd), unknown);
            assert_eq!(rt; logarithm(odd), Vec4::splat(Unknown, 32));
            for (left, right) in [(odd, one), (one, odd)] {
                assert!(rt; left.width() == right.width());
                assert_eq!(rt; combined(left, right), (unknown, unknown, unknown));
                assert_eq!(rt; divided_unsigned(left, right), (unknown, unknown));
                assert_eq!(rt; divided_signed(left, right), (unknown, unknown));
                assert_eq!(rt; raised(left, right), unknown);
                assert_eq!(rt; compared(left, right), (Unknown, Unknown));
            }
        }
    }
}

#[test]
fn compares(rt: HostRuntime) {
    // The width, the operands, and `<` of the numbers and of the signed numbers.
    for (width, x, y, less, less_signed) in [
        (1, 0, 1, One, Zero),
        (1, 1, 0, Zero, One),
        (2, 1, 1, Zero, Zero),
        (64, TOP_64, TOP_64 - 1, Zero, One),
        (65, 3, TOP_65, One, Zero),
        (127, TOP_127, ONES_127, One, One),
        (128, TOP_128, 0, Zero, One),
        (128, u128::MAX, u128::MAX, Zero, Zero),
    ] {
        assert!(rt; 1 <= width && width <= 128);
        let results = compared(number(x, width), number(y, width));
        assert_eq!(rt; results, (less, less_signed), "{x} < {y}");
    }
}

#[test]
fn raises(rt: HostRuntime) {
    // The base's width and number, the exponent's, and the power.
    for (width, x, exponent_width, y, power) in [
        (1, 0, 1, 0, 1),
        (128, 0, 128, 0, 1),
        (8, 3, 3, 5, 243),
        (8, 3, 128, 6, 217),
        (2, 3, 65, 3, 3),
        (64, 2, 6, 63, TOP_64),
        (64, 2, 7, 64, 0),
        (65, 2, 7, 64, TOP_65),
        (127, 2, 128, u128::MAX, 0),
        (128, 3, 128, TOP_128, 1),
        (128, u128::MAX, 128, u128::MAX, u128::MAX),
    ] {
        assert!(rt; 1 <= width && width <= 128 && 1 <= exponent_width && exponent_width <= 128);
        let result = raised(number(x, width), number(y, exponent_width));
        assert_eq!(rt; result, number(power, width), "{x} ** {y}");
    }
}

#[test]
fn rounds_logarithms_up(rt: HostRuntime) {
    for (width, x, result) in [
        (1, 0, 0),
        (1, 1, 0),
        (2, 2, 1),
        (2, 3, 2),
        (8, 4, 2),
        (8, 5, 3),
        (64, TOP_64, 63),
        (65, TOP_65 - 1, 64),
        (127, TOP_127 + 1, 127),
        (128, TOP_128, 127),
        (128, TOP_128 + 1, 128),
        (128, u128::MAX, 128),
    ] {
        assert!(rt; 1 <= width && width <= 128);
        assert_eq!(rt; logarithm(number(x, width)), number(result, 32), "of {x}");
    }
}

#[test]
fn shifts_each_bit(rt: HostRuntime) {
    // The count, and the planes of `<<`, `>>` and `>>>` of z10x, highest first.
    for (count, left, right, signed_right) in [
        (0, (0b0101, 0b1001), (0b0101, 0b1001), (0b0101, 0b1001)),
        (1, (0b1010, 0b0010), (0b0010, 0b0100), (0b0010, 0b1100)),
        (3, (0b1000, 0b1000), (0, 1), (0, 0b1111)),
        (4, (0, 0), (0, 0), (0, 0b1111)),
        (u64::MAX, (0, 0), (0, 0), (0, 0b1111)),
    ] {
        let results = shifted(Vec4::from_planes(0b0101, 0b1001, 4), count);
        assert_eq!(rt; results.0, Vec4::from_planes(left.0, left.1, 4));
        assert_eq!(rt; results.1, Vec4::from_planes(right.0, right.1, 4));
        assert_eq!(rt;
            results.2,
            Vec4::from_planes(signed_right.0, signed_right.1, 4)
        );
    }
}

#[test]
fn shifts_at_each_width(rt: HostRuntime) {
    // The width, the number, the count, and the numbers of `<<`, `>>` and `>>>`.
    for (width, x, count, left, right, signed_right) in [
        (1, 1, 1, 0, 0, 1),
        (2, 2, 1, 0, 1, 3),
        (64, ONES_64, 63, TOP_64, 1, ONES_64),
        (65, TOP_65 + 1, 64, TOP_65, 1, 2 * TOP_65 - 1),
        (127, ONES_127, 127, 0, 0, ONES_127),
        (128, TOP_128 + 1, 127, TOP_128, 1, u128::MAX),
        (128, TOP_128 + 1, 128, 0, 0, u128::MAX),
        (128, ONES_127, 1 << 63, 0, 0, 0),
    ] {
        assert!(rt; 1 <= width && width <= 128);
        let results = shifted(number(x, width), count);
        assert_eq!(rt; results.0, number(left, width), "{x} << {count}");
        assert_eq!(rt; results.1, number(right, width), "{x} >> {count}");
        assert_eq!(rt; results.2, number(signed_right, width), "{x} >>> {count}");
    }
}
