//! A fault of a constant pool as it is printed.

ghost use Rattle.std.specs.Prelude.{Some};
ghost use Rattle.jv_malformed.specs.Text.{broken_text, pool_text};

use crate::pool::FaultyPool;
use jv_pool::Kind;
use std::fmt;

/// A constant of this kind that breaks the rule of its kind.
#[derive(Clone, Copy)]
struct ShownBroken(Kind);

impl fmt::Display for ShownBroken {
    ghost output = { λ broken. Some (broken_text broken.0) };

    fn fmt<W: fmt::Write>(&self, f: &mut fmt::Formatter<W>) -> fmt::Result {
        f.write_str(match self.0 {
            Kind::Utf8 => "a Utf8 that is not in modified UTF-8 (JVMS 4.4.7)",
            Kind::Class => "a Class that does not name a class or an array type (JVMS 4.4.1)",
            Kind::String => "a String that does not name a Utf8 (JVMS 4.4.3)",
            Kind::Fieldref =>
                "a Fieldref that does not name a class and a field descriptor (JVMS 4.4.2)",
            Kind::Methodref =>
                "a Methodref that does not name a class, a method name and a method descriptor, of void for <init> (JVMS 4.4.2)",
            Kind::InterfaceMethodref =>
                "an InterfaceMethodref that does not name a class, a method name without < and a method descriptor (JVMS 4.4.2)",
            Kind::NameAndType =>
                "a NameAndType that does not name an unqualified name and a descriptor (JVMS 4.4.6)",
            _ => "one that breaks the rule of its kind (JVMS 4.4)",
        })
    }
}

impl fmt::Display for FaultyPool {
    ghost output = { λ fault. Some (pool_text fault) };

    fn fmt<W: fmt::Write>(&self, f: &mut fmt::Formatter<W>) -> fmt::Result {
        match *self {
            FaultyPool::Count => f.write_str(
                "  the count of the constants: it is cut off, 0, or too small for the last constant (JVMS 4.1, 4.4.5)\n",
            ),
            FaultyPool::Missing(index) => write!(
                f,
                "  constant {index}: it is cut off, or no constant has such a tag (JVMS 4.4)\n"
            ),
            FaultyPool::Broken(index, kind) => {
                let broken = ShownBroken(kind);
                write!(f, "  constant {index} is {broken}\n")
            }
        }
    }
}
