//! Class files for tests.

use std::alloc::{AllocError, Global};

/// A class `Hi` whose method `main` writes `Hi`, 168 bytes. Constants 1 to 13: `Hi`, its Class,
/// `java/lang/Object`, its Class, `main`, `([Ljava/lang/String;)V`, `Code`, `host/Io`, its Class,
/// `write`, `(I)V`, the two as a NameAndType, and the Methodref.
pub(crate) static HI: [u8; 168] = *b"\xca\xfe\xba\xbe\x00\x00\x00\x34\x00\x0e\
\x01\x00\x02Hi\x07\x00\x01\
\x01\x00\x10java/lang/Object\x07\x00\x03\
\x01\x00\x04main\
\x01\x00\x16([Ljava/lang/String;)V\
\x01\x00\x04Code\
\x01\x00\x07host/Io\x07\x00\x08\
\x01\x00\x05write\x01\x00\x04(I)V\
\x0c\x00\x0a\x00\x0b\x0a\x00\x09\x00\x0c\
\x00\x21\x00\x02\x00\x04\x00\x00\x00\x00\x00\x01\
\x00\x09\x00\x05\x00\x06\x00\x01\
\x00\x07\x00\x00\x00\x17\x00\x01\x00\x01\x00\x00\x00\x0b\
\x10\x48\xb8\x00\x0d\x10\x69\xb8\x00\x0d\xb1\
\x00\x00\x00\x00\x00\x00";

/// The same class with a SourceFile, an InnerClasses and a Signature, a Signature of its method, and a
/// LineNumberTable of its code (JVMS 4.7): attributes that are passed over.
pub(crate) static HI_WITH_ATTRIBUTES: &[u8] =
    b"\xca\xfe\xba\xbe\x00\x00\x004\x00\x14\x01\x00\x02Hi\x07\x00\x01\x01\x00\x10java/lang/Obje\
ct\x07\x00\x03\x01\x00\x04main\x01\x00\x16([Ljava/lang/String;)V\x01\x00\x04Code\x01\x00\x07\
host/Io\x07\x00\x08\x01\x00\x05write\x01\x00\x04(I)V\x0c\x00\x0a\x00\x0b\x0a\x00\x09\x00\x0c\
\x01\x00\x0aSourceFile\x01\x00\x07Hi.java\x01\x00\x0fLineNumberTable\x01\x00\x0cInnerClas\
ses\x01\x00\x09Signature\x01\x00\x12Ljava/lang/Object;\x00!\x00\x02\x00\x04\x00\x00\x00\x00\
\x00\x01\x00\x09\x00\x05\x00\x06\x00\x02\x00\x07\x00\x00\x00#\x00\x01\x00\x01\x00\x00\x00\
\x0b\x10H\xb8\x00\x0d\x10i\xb8\x00\x0d\xb1\x00\x00\x00\x01\x00\x10\x00\x00\x00\x06\x00\x01\
\x00\x00\x00\x03\x00\x12\x00\x00\x00\x02\x00\x13\x00\x03\x00\x0e\x00\x00\x00\x02\x00\x0f\x00\
\x11\x00\x00\x00\x0a\x00\x01\x00\x02\x00\x00\x00\x00\x00\x09\x00\x12\x00\x00\x00\x02\x00\x13\
";

fn patch(file: &mut [u8], patches: &[(usize, u8)]) {
    for (at, byte) in patches {
        if let Some(place) = file.get_mut(*at) {
            *place = *byte;
        }
    }
}

/// The file with other bytes at some offsets.
pub(crate) fn patched(patches: &[(usize, u8)]) -> [u8; 168] {
    let mut file = HI;
    patch(&mut file, patches);
    file
}

/// The file with other bytes at some offsets, and then with these constants in place of `main`
/// and of its descriptor.
pub(crate) fn renamed(
    alloc: Global,
    patches: &[(usize, u8)],
    name: &[u8],
    descriptor: &[u8],
) -> Result<Vec<u8>, AllocError> {
    let mut file = HI;
    patch(&mut file, patches);
    let mut bytes = Vec::new(alloc);
    let (front, rest) = file.split_at(40);
    let (_, rest) = rest.split_at(32);
    bytes.extend_from_slice(front)?;
    bytes.extend_from_slice(name)?;
    bytes.extend_from_slice(descriptor)?;
    bytes.extend_from_slice(rest)?;
    Ok(bytes)
}
