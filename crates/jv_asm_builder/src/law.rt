//! The law.

ghost use Rattle.jv_asm_builder.specs.Law.{IndicesName};

/// An index that the class builder gives names what was added with it, and goes on to name it when
/// more constants have joined.
pub fn indices_name()
    ensures { IndicesName }
{}
