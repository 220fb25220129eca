//! The opcode of an instruction, and the numbers behind it (JVMS 6.5).

ghost use Rattle.std.specs.Prelude.{◌≡◌, ◌+◌, ◌<◌, ◌≤◌, [], ◌∷◌, length, get_or, IsTrue};
ghost use Rattle.jv_format.specs.Format.{byte, half};
ghost use Rattle.jv_code.specs.Numbers.{signed8, signed16};
ghost use Rattle.jv_code.specs.Places.{IsStart};
ghost use Rattle.jv_code.specs.Operands.{HasBytes, least_operands};
ghost use Rattle.jv_interp_words.specs.Inside.Switches.{quad_there, signed_there};

/// The opcode of the instruction at an offset.
#[inline(always)]
pub(crate) fn opcode_at(code: &[u8], pc: usize) -> u8
    requires { IsStart code.now pc }
    ensures stands { HasBytes code.now pc (result ∷ []) }
    ensures is { result ≡ get_or code.now pc 0 }
    ensures room { (pc + 1) + least_operands result ≤ length code.now }
{
    code[pc]
}

/// The number in the byte at an offset.
#[inline(always)]
pub(crate) fn byte_at(code: &[u8], at: usize) -> u8
    requires { at < length code.now }
    ensures { HasBytes code.now at (byte.spelling result) }
{
    code[at]
}

/// The same, as the index of a local variable.
#[inline(always)]
pub(crate) fn index_at(code: &[u8], at: usize) -> u16
    requires { at < length code.now }
    ensures stands { HasBytes code.now at (byte.spelling result) }
    ensures fits { IsTrue (byte.fits result) }
{
    u16::from(byte_at(code, at))
}

/// The number in the two bytes at an offset.
#[inline(always)]
pub(crate) fn half_at(code: &[u8], at: usize) -> u16
    requires { at + 2 ≤ length code.now }
    ensures { HasBytes code.now at (half.spelling result) }
{
    u16::from_be_bytes([code[at], code[at + 1]])
}

/// The signed number in the byte at an offset.
#[inline(always)]
pub(crate) fn signed_byte_at(code: &[u8], at: usize) -> i8
    requires { at < length code.now }
    ensures stands { HasBytes code.now at (signed8.spelling result) }
    ensures fits { IsTrue (signed8.fits result) }
{
    byte_at(code, at).cast_signed()
}

/// The same, as the constant of an instruction.
#[inline(always)]
pub(crate) fn byte_constant(code: &[u8], at: usize) -> i16
    requires { at < length code.now }
    ensures stands { HasBytes code.now at (signed8.spelling result) }
    ensures fits { IsTrue (signed8.fits result) }
{
    i16::from(signed_byte_at(code, at))
}

/// The signed number in the two bytes at an offset.
#[inline(always)]
pub(crate) fn half_constant(code: &[u8], at: usize) -> i16
    requires { at + 2 ≤ length code.now }
    ensures stands { HasBytes code.now at (signed16.spelling result) }
    ensures fits { IsTrue (signed16.fits result) }
{
    half_at(code, at).cast_signed()
}

/// The same, as the distance of a jump.
#[inline(always)]
pub(crate) fn distance_at(code: &[u8], at: usize) -> i32
    requires { at + 2 ≤ length code.now }
    ensures stands { HasBytes code.now at (signed16.spelling result) }
    ensures fits { IsTrue (signed16.fits result) }
{
    i32::from(half_constant(code, at))
}

/// The number in the four bytes at an offset.
#[inline(always)]
fn quad_at(code: &[u8], at: usize) -> u32
    requires { at + 4 ≤ length code.now }
    ensures { result ≡ quad_there code.now at }
{
    u32::from_be_bytes([code[at], code[at + 1], code[at + 2], code[at + 3]])
}

/// The signed number in the four bytes at an offset.
#[inline(always)]
pub(crate) fn signed_quad_at(code: &[u8], at: usize) -> i32
    requires { at + 4 ≤ length code.now }
    ensures { result ≡ signed_there code.now at }
{
    quad_at(code, at).cast_signed()
}

/// The signed number in the byte at an offset, as what is added to a local variable.
#[inline(always)]
pub(crate) fn addend_at(code: &[u8], at: usize) -> i32
    requires { at < length code.now }
    ensures stands { HasBytes code.now at (signed8.spelling result) }
    ensures fits { IsTrue (signed8.fits result) }
{
    i32::from(signed_byte_at(code, at))
}
