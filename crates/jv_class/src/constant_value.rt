//! The constants that static fields have as their values (JVMS 4.7.2).

ghost use Rattle.std.specs.Prelude.{◌≡◌, false, IfSome, IfNone};
ghost use Rattle.std.specs.List.{All};
ghost use Rattle.jv_pool.specs.Constants.{kind_at};
ghost use Rattle.jv_pool.specs.Rules.{KeepsRules};
ghost use Rattle.jv_class.specs.Value.{value_number, IsValueNamed, is_value};

use jv_pool::{IntegerIndex, Kind, LongIndex, Pool, StringIndex};

/// The constant that a static field has as its value.
#[derive(Clone, Copy)]
pub enum ConstantValue {
    /// Of an int, short, char, byte or boolean.
    Integer(IntegerIndex),
    /// Of a long.
    Long(LongIndex),
    /// Of a java/lang/String.
    String(StringIndex),
}

/// The value at an index, where a constant of one of the three kinds stands there.
pub(crate) fn value_at(pool: &Pool<'_>, index: u16) -> Option<ConstantValue>
    requires { All (KeepsRules pool.now) pool.now }
    ensures same { IfSome result (λ value. value_number value ≡ index) }
    ensures named { IfSome result (λ value. IsValueNamed pool.now value) }
    ensures none { IfNone result (is_value (kind_at pool.now index) ≡ false) }
{
    match pool.kind(index) {
        Some(Kind::Integer) => Some(ConstantValue::Integer(IntegerIndex(index))),
        Some(Kind::Long) => Some(ConstantValue::Long(LongIndex(index))),
        Some(Kind::String) => Some(ConstantValue::String(StringIndex(index))),
        _ => None,
    }
}
