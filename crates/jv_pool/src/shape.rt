//! What the tag of a constant says of the bytes behind it (JVMS table 4.4-A).

ghost use Rattle.std.specs.Prelude.{◌≡◌};
ghost use Rattle.jv_pool.specs.Inside.Reading.{shape_of};

/// A constant that is four bytes.
#[derive(Clone, Copy)]
pub(crate) enum QuadKind {
    Integer,
    Float,
}

/// A constant that is two times four bytes.
#[derive(Clone, Copy)]
pub(crate) enum TwoQuadsKind {
    Long,
    Double,
}

/// A constant that is an index.
#[derive(Clone, Copy)]
pub(crate) enum HalfKind {
    Class,
    String,
    MethodType,
}

/// A constant that is two indices.
#[derive(Clone, Copy)]
pub(crate) enum TwoHalvesKind {
    Fieldref,
    Methodref,
    InterfaceMethodref,
    NameAndType,
    InvokeDynamic,
}

/// What stands behind a tag.
#[derive(Clone, Copy)]
pub(crate) enum ConstantShape {
    Text,
    Quad(QuadKind),
    TwoQuads(TwoQuadsKind),
    Half(HalfKind),
    TwoHalves(TwoHalvesKind),
    ByteAndHalf,
}

/// The shape of the constants with this tag.
#[inline(always)]
pub(crate) fn shape_of(tag: u8) -> Option<ConstantShape>
    ensures { result ≡ shape_of tag }
{
    match tag {
        1 => Some(ConstantShape::Text),
        3 => Some(ConstantShape::Quad(QuadKind::Integer)),
        4 => Some(ConstantShape::Quad(QuadKind::Float)),
        5 => Some(ConstantShape::TwoQuads(TwoQuadsKind::Long)),
        6 => Some(ConstantShape::TwoQuads(TwoQuadsKind::Double)),
        7 => Some(ConstantShape::Half(HalfKind::Class)),
        8 => Some(ConstantShape::Half(HalfKind::String)),
        9 => Some(ConstantShape::TwoHalves(TwoHalvesKind::Fieldref)),
        10 => Some(ConstantShape::TwoHalves(TwoHalvesKind::Methodref)),
        11 => Some(ConstantShape::TwoHalves(TwoHalvesKind::InterfaceMethodref)),
        12 => Some(ConstantShape::TwoHalves(TwoHalvesKind::NameAndType)),
        15 => Some(ConstantShape::ByteAndHalf),
        16 => Some(ConstantShape::Half(HalfKind::MethodType)),
        18 => Some(ConstantShape::TwoHalves(TwoHalvesKind::InvokeDynamic)),
        _ => None,
    }
}
