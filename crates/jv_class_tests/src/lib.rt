//! Tests of the readers and the writer of class files: texts, names and descriptors, constant pools, classes and stack map frames, and
//! `jv_code`, the decoder of instructions; `jv_asm`, the class writer, and `jv_asm_builder`. Beside what their contracts say, each function
//! of a door once on its happy path, tables of what is accepted and refused, and tests for runs in which an allocation is refused.
#![tactic(auto)]

#[cfg(test)]
mod builder;
#[cfg(test)]
mod class;
#[cfg(test)]
mod codes;
#[cfg(test)]
mod files;
#[cfg(test)]
mod frames;
#[cfg(test)]
mod hi;
#[cfg(test)]
mod instructions;
#[cfg(test)]
mod large;
#[cfg(test)]
mod opcodes;
#[cfg(test)]
mod places;
#[cfg(test)]
mod pool;
#[cfg(test)]
mod refused;
#[cfg(test)]
mod refused_frames;
#[cfg(test)]
mod shown;
#[cfg(test)]
mod string_class;
#[cfg(test)]
mod support;
#[cfg(test)]
mod switches;
#[cfg(test)]
mod text;
