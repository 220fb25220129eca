//! Passes over the instruction at the front of bytes (JVMS 6.5).

ghost use Rattle.std.specs.Prelude.{◌≡◌, ℕ};
ghost use Rattle.jv_code.specs.Inside.Reading.{insn_read};
ghost use Rattle.jv_code.specs.Inside.Skipping.{size_at, HasSize, PassesOver};

use crate::reading::read_insn;
use jv_format::byte_at;

/// How many bytes an instruction takes, by its opcode, from 0 on; 0 where the opcode alone does
/// not tell it, or not whether the operands fit, and where it is not of the profile.
static SIZES: [u8; 256] = [
    // 0 to 15
    1, 1, 1, 1, 1, 1, 1, 1, 1, 1, 1, 0, 0, 0, 0, 0,
    // 16 to 31
    2, 3, 2, 3, 3, 2, 2, 0, 0, 2, 1, 1, 1, 1, 1, 1,
    // 32 to 47
    1, 1, 0, 0, 0, 0, 0, 0, 0, 0, 1, 1, 1, 1, 1, 1,
    // 48 to 63
    0, 0, 1, 1, 1, 1, 2, 2, 0, 0, 2, 1, 1, 1, 1, 1,
    // 64 to 79
    1, 1, 1, 0, 0, 0, 0, 0, 0, 0, 0, 1, 1, 1, 1, 1,
    // 80 to 95
    1, 0, 0, 1, 1, 1, 1, 1, 1, 1, 1, 1, 1, 1, 1, 1,
    // 96 to 111
    1, 1, 0, 0, 1, 1, 0, 0, 1, 1, 0, 0, 1, 1, 0, 0,
    // 112 to 127
    1, 1, 0, 0, 1, 1, 0, 0, 1, 1, 1, 1, 1, 1, 1, 1,
    // 128 to 143
    1, 1, 1, 1, 3, 1, 0, 0, 1, 0, 0, 0, 0, 0, 0, 0,
    // 144 to 159
    0, 1, 1, 1, 1, 0, 0, 0, 0, 3, 3, 3, 3, 3, 3, 3,
    // 160 to 175
    3, 3, 3, 3, 3, 3, 3, 3, 0, 0, 0, 0, 1, 1, 0, 0,
    // 176 to 191
    1, 1, 3, 3, 3, 3, 3, 3, 3, 0, 0, 3, 0, 3, 1, 1,
    // 192 to 207
    3, 3, 0, 0, 0, 0, 3, 3, 5, 0, 0, 0, 0, 0, 0, 0,
    // 208 to 223
    0, 0, 0, 0, 0, 0, 0, 0, 0, 0, 0, 0, 0, 0, 0, 0,
    // 224 to 239
    0, 0, 0, 0, 0, 0, 0, 0, 0, 0, 0, 0, 0, 0, 0, 0,
    // 240 to 255
    0, 0, 0, 0, 0, 0, 0, 0, 0, 0, 0, 0, 0, 0, 0, 0,
];

#[inline(always)]
fn size_of(opcode: u8) -> usize
    ensures { result ≡ size_at opcode }
{
    usize::from(SIZES[usize::from(opcode)])
}

/// How many bytes the instruction at the front takes, where its opcode alone tells it and they are
/// there, and else 0.
#[inline(always)]
pub(crate) fn told_size(bytes: &[u8]) -> usize
    ensures { (result ≡ 0 → ⊥) → (at : ℕ) → HasSize at bytes.now result }
{
    let Some((opcode, _operands)) = byte_at(bytes) else {
        return 0;
    };
    let size = size_of(opcode);
    if bytes.len() < size {
        return 0;
    }
    size
}

/// How many bytes the instruction at the front takes, by its operands, and 0 where none stands.
#[inline(never)]
fn read_size(at: usize, bytes: &[u8]) -> usize
    ensures some { (result ≡ 0 → ⊥) → HasSize at bytes.now result }
    ensures none { result ≡ 0 → insn_read at bytes.now ≡ None }
{
    let Some((_insn, rest)) = read_insn(at, bytes) else {
        return 0;
    };
    bytes.len() - rest.len()
}

#[inline(always)]
fn skip_read(at: usize, bytes: &[u8]) -> Option<&[u8]>
    ensures { PassesOver (insn_read at bytes.now) result }
{
    let size = read_size(at, bytes);
    if size == 0 {
        return None;
    }
    let (_, rest) = bytes.split_at(size);
    Some(rest)
}

/// What follows the instruction at the front, which stands at an offset of the code.
#[inline(always)]
pub(crate) fn skip_insn(at: usize, bytes: &[u8]) -> Option<&[u8]>
    ensures { PassesOver (insn_read at bytes.now) result }
{
    let size = told_size(bytes);
    if size == 0 {
        return skip_read(at, bytes);
    }
    let (_, rest) = bytes.split_at(size);
    Some(rest)
}
