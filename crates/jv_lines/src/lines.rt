//! The lines of all instructions of a class.
ghost use Rattle.std.specs.Prelude.{◌≡◌};
ghost use Rattle.jv_lines.specs.Lines.{line_at};

use crate::file::{method_in, methods_in};
use crate::table::{line_in, lines_in};
use std::alloc::Global;

/// The line of source at each offset of the code of each method of a class, where the class's file has a LineNumberTable that says it
/// (JVMS 4.7.12).
#[derive(Drop)]
pub struct Lines {
    methods: Vec<Vec<Option<u16>>>,
}

impl Lines {
    /// The lines that a class file with these bytes says. There are none of bytes that are no class file, and fewer for want of memory.
    pub fn read(alloc: Global, bytes: &[u8]) -> Lines {
        let mut methods = Vec::new(alloc);
        let Some((pool, _this, mut rest)) = methods_in(alloc, bytes) else {
            return Lines { methods };
        };
        let Some(count) = rest.half() else {
            return Lines { methods };
        };
        for _ in 0..count {
            let Some(method) = method_in(&pool, &mut rest) else {
                return Lines { methods };
            };
            let Ok(lines) = lines_in(alloc, &pool, method.code) else {
                return Lines { methods };
            };
            let Ok(()) = methods.push(lines) else {
                return Lines { methods };
            };
        }
        Lines { methods }
    }

    /// The line at an offset of the code of the method with a number, where one is said.
    pub fn at(&self, method: usize, offset: u32) -> Option<u16>
        ensures { result ≡ line_at self.now method offset }
    {
        match self.methods.get(method) {
            Some(lines) => line_in(lines.as_slice(), offset as usize),
            None => None,
        }
    }
}
