//! What a text can be the name of, told by one pass over its bytes (JVMS 4.2, 4.4.7).

ghost use Rattle.std.specs.Prelude.{◌≡◌, ◌↔◌, IsTrue};
ghost use Rattle.jv_text.specs.Text.{IsText};
ghost use Rattle.jv_text.specs.Name.{is_unqualified_name, is_class_name, is_method_name};
ghost use Rattle.jv_text.specs.Inside.Marks.{mark_at, AreMarks};

use crate::name::{is_class_name, is_special};
use crate::text::is_text;

/// The mark of `<` and `>`, without which each unqualified name is a method name; that of bytes which aren't ASCII, and of zero, is 1.
const ANGLE: u8 = 2;

/// The mark of `/`, which stands in class names alone.
const SLASH: u8 = 4;

/// The mark of `.`, `;` and `[`, which stand in no name.
const BARRED: u8 = 8;

/// The mark of each byte, from 0 on; 0 of what any name may have.
static MARKS: [u8; 256] = [
    // 0 to 15
    1, 0, 0, 0, 0, 0, 0, 0, 0, 0, 0, 0, 0, 0, 0, 0,
    // 16 to 31
    0, 0, 0, 0, 0, 0, 0, 0, 0, 0, 0, 0, 0, 0, 0, 0,
    // 32 to 47
    0, 0, 0, 0, 0, 0, 0, 0, 0, 0, 0, 0, 0, 0, 8, 4,
    // 48 to 63
    0, 0, 0, 0, 0, 0, 0, 0, 0, 0, 0, 8, 2, 0, 2, 0,
    // 64 to 79
    0, 0, 0, 0, 0, 0, 0, 0, 0, 0, 0, 0, 0, 0, 0, 0,
    // 80 to 95
    0, 0, 0, 0, 0, 0, 0, 0, 0, 0, 0, 8, 0, 0, 0, 0,
    // 96 to 111
    0, 0, 0, 0, 0, 0, 0, 0, 0, 0, 0, 0, 0, 0, 0, 0,
    // 112 to 127
    0, 0, 0, 0, 0, 0, 0, 0, 0, 0, 0, 0, 0, 0, 0, 0,
    // 128 to 143
    1, 1, 1, 1, 1, 1, 1, 1, 1, 1, 1, 1, 1, 1, 1, 1,
    // 144 to 159
    1, 1, 1, 1, 1, 1, 1, 1, 1, 1, 1, 1, 1, 1, 1, 1,
    // 160 to 175
    1, 1, 1, 1, 1, 1, 1, 1, 1, 1, 1, 1, 1, 1, 1, 1,
    // 176 to 191
    1, 1, 1, 1, 1, 1, 1, 1, 1, 1, 1, 1, 1, 1, 1, 1,
    // 192 to 207
    1, 1, 1, 1, 1, 1, 1, 1, 1, 1, 1, 1, 1, 1, 1, 1,
    // 208 to 223
    1, 1, 1, 1, 1, 1, 1, 1, 1, 1, 1, 1, 1, 1, 1, 1,
    // 224 to 239
    1, 1, 1, 1, 1, 1, 1, 1, 1, 1, 1, 1, 1, 1, 1, 1,
    // 240 to 255
    1, 1, 1, 1, 1, 1, 1, 1, 1, 1, 1, 1, 1, 1, 1, 1,
];

/// What bytes can be the name of, and whether they are text.
#[derive(Clone, Copy)]
pub struct TextKinds {
    /// Whether they are the name of a class or an interface (JVMS 4.2.1).
    pub class_name: bool,
    /// Whether they are an unqualified name (4.2.2).
    pub member_name: bool,
    /// Whether they may name a method (4.2.2).
    pub method_name: bool,
    /// Whether they are modified UTF-8 (4.4.7).
    pub text: bool,
}

#[inline(always)]
fn mark_of(byte: u8) -> u8
    ensures { result ≡ mark_at byte }
{
    MARKS[usize::from(byte)]
}

/// The marks of all bytes, in one number.
fn marks_of(bytes: &[u8]) -> u8
    ensures { AreMarks bytes.now result }
{
    let mut marks = 0;
    for byte in bytes {
        marks |= mark_of(*byte);
    }
    marks
}

fn is_member_name_by(marks: u8, bytes: &[u8]) -> bool
    requires { AreMarks bytes.now marks }
    ensures { result ≡ is_unqualified_name bytes.now }
{
    !bytes.is_empty() && marks < SLASH
}

/// Where they are no unqualified name, the parts between slashes are looked at.
fn is_class_name_by(marks: u8, member_name: bool, bytes: &[u8]) -> bool
    requires marks { AreMarks bytes.now marks }
    requires member { member_name ≡ is_unqualified_name bytes.now }
    ensures { result ≡ is_class_name bytes.now }
{
    member_name || (marks < BARRED && is_class_name(bytes))
}

fn is_method_name_by(marks: u8, member_name: bool, bytes: &[u8]) -> bool
    requires marks { AreMarks bytes.now marks }
    requires member { member_name ≡ is_unqualified_name bytes.now }
    ensures { result ≡ is_method_name bytes.now }
{
    member_name && (marks < ANGLE || is_special(bytes))
}

/// Bytes of ASCII without zero are text; of others each unit is looked at.
fn is_text_by(marks: u8, bytes: &[u8]) -> bool
    requires { AreMarks bytes.now marks }
    ensures { IsTrue result ↔ IsText bytes.now }
{
    marks % 2 == 0 || is_text(bytes)
}

/// What the bytes can be the name of, and whether they are text. Most are looked at once; class names with slashes and texts that
/// aren't ASCII once more.
pub fn text_kinds(bytes: &[u8]) -> TextKinds
    ensures class_name { result.class_name ≡ is_class_name bytes.now }
    ensures member_name { result.member_name ≡ is_unqualified_name bytes.now }
    ensures method_name { result.method_name ≡ is_method_name bytes.now }
    ensures text { IsTrue result.text ↔ IsText bytes.now }
{
    let marks = marks_of(bytes);
    let member_name = is_member_name_by(marks, bytes);
    TextKinds {
        class_name: is_class_name_by(marks, member_name, bytes),
        member_name,
        method_name: is_method_name_by(marks, member_name, bytes),
        text: is_text_by(marks, bytes),
    }
}
