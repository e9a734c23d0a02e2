//! The 32 slices of the ALU, side by side in the bits of a word.

ghost use Rattle.std.specs.Prelude.{◌≡◌, ◌<◌, ◌*◌, ◌&&◌, ℕ, bit_and, bit_xor, if◌then◌else◌};
ghost use Rattle.std.specs.Int.{bit_at};
ghost use Rattle.mic_alu.specs.Gates.{combined};
ghost use Rattle.mic_alu.specs.Slices.{slice_bit, slice_carry, carry_to};
ghost use Rattle.mic_alu.specs.Rounds.{HandsOn};

use crate::wires::Wires;

/// A bit for each slice.
pub const EACH: u32 = 0xFFFF_FFFF;

/// What the slices give: a bit each, and a carry to the next one each.
#[derive(Clone, Copy)]
struct Given {
    bits: u32,
    carries: u32,
}

/// One slice, in each bit of a word.
fn slices(wires: Wires, a: u32, b: u32, carries: u32) -> Given
    ensures bit { (i : ℕ) → i < 32 → bit_at result.bits i ≡ slice_bit wires a b (bit_at carries i) i }
    ensures carry { (i : ℕ) → i < 32 → bit_at result.carries i ≡ slice_carry wires a b (bit_at carries i) i }
{
    let x = (a & wires.ena) ^ wires.inva;
    let y = b & wires.enb;
    match (wires.f0, wires.f1) {
        (false, false) => Given {
            bits: x & y,
            carries: 0,
        },
        (false, true) => Given {
            bits: x | y,
            carries: 0,
        },
        (true, false) => Given {
            bits: !y,
            carries: 0,
        },
        (true, true) => Given {
            bits: x ^ y ^ carries,
            carries: (x & y) | ((x | y) & carries),
        },
    }
}

/// What the stretch of slices up to each one hands on: a carry made within it, and one that passes through all of it.
#[derive(Clone, Copy)]
struct Handed {
    made: u32,
    passed: u32,
}

/// What stretches twice as long hand on.
fn twice(handed: Handed, reach: u32) -> Handed
    requires { reach < 32 }
    ensures { (carry : ℕ → ℕ) → HandsOn reach handed carry → HandsOn (reach * 2) result carry }
{
    let more = handed.passed & (handed.made << reach);
    Handed {
        made: handed.made | more,
        passed: handed.passed & (handed.passed << reach),
    }
}

/// What each slice hands on in the end.
fn settle(one: Handed) -> u32
    ensures { (carry : ℕ → ℕ) → HandsOn 1 one carry → (i : ℕ) → i < 32 → bit_at result i ≡ carry i }
{
    let more = one.passed & (one.made << 1);
    // In most sums no slice hands on a carry that comes to it.
    if more == 0 {
        return one.made;
    }
    let two = twice(one, 1);
    let four = twice(two, 2);
    let eight = twice(four, 4);
    let sixteen = twice(eight, 8);
    let all = twice(sixteen, 16);
    all.made
}

/// INC, as the carry that comes to the first slice.
fn first(inc: bool) -> u32
    ensures { result ≡ (if inc then 1 else 0) }
{
    if inc { 1 } else { 0 }
}

/// The carry that comes to each slice.
fn carries(wires: Wires, inc: bool, a: u32, b: u32) -> u32
    ensures { (i : ℕ) → i < 32 → bit_at result i ≡ carry_to wires inc a b i }
{
    let first = first(inc);
    let made = slices(wires, a, b, 0).carries;
    let passed = slices(wires, a, b, EACH).carries;
    let handed = Handed {
        made: made | (passed & first),
        passed,
    };
    (settle(handed) << 1) | first
}

/// Whether F0 and F1 open the adder's gate.
fn is_adder(wires: Wires) -> bool
    ensures { result ≡ (wires.f0 && wires.f1) }
{
    wires.f0 && wires.f1
}

/// The word that the slices give together.
pub fn gated(wires: Wires, inc: bool, a: u32, b: u32) -> u32
    ensures { result ≡ combined wires.f0 wires.f1 inc (bit_xor (bit_and a wires.ena) wires.inva) (bit_and b wires.enb) }
{
    // Only the adder takes carries.
    if is_adder(wires) {
        let sum = slices(wires, a, b, carries(wires, inc, a, b));
        return sum.bits;
    }
    let chosen = slices(wires, a, b, 0);
    chosen.bits
}
