//! Verdicts and what is said of them as they are printed.
ghost use Rattle.std.specs.Prelude.{◌++◌, Some, map, string_bytes};
ghost use Rattle.jv_limits.specs.Bytes.{bytes_of};
ghost use Rattle.jv_program_check.specs.Text.{check_line};
ghost use Rattle.jv_program_explain.specs.Text.{explain_text};

use jv_meaning_typing::Verdict;
use jv_program_base::{Escaped, ShownVerdict, bytes_at, text_at, verdict_at};
use std::fmt;

/// What is said of a file: its name and its verdict, and more.
#[derive(Clone, Copy)]
struct Part<'a> {
    name: &'a [u8],
    verdict: Verdict,
    more: &'a str,
}

/// What is said of each file.
#[derive(Clone, Copy)]
pub struct Parts<'a> {
    /// The names of the files.
    pub names: &'a [&'a [u8]],
    /// The verdicts on them.
    pub verdicts: &'a [Verdict],
    /// What is said of these.
    pub said: &'a [String],
}

impl fmt::Display for Part<'_> {
    ghost output = { λ part. Some (check_line part.name.now part.verdict ++ part.more.now) };

    fn fmt<W: fmt::Write>(&self, f: &mut fmt::Formatter<W>) -> fmt::Result {
        let name = Escaped(self.name);
        let verdict = ShownVerdict(self.verdict);
        let more = self.more;
        write!(f, "{name}: {verdict}\n{more}")
    }
}

impl fmt::Display for Parts<'_> {
    ghost output = { λ parts. Some (explain_text (map bytes_of parts.names.now) parts.verdicts.now (map string_bytes parts.said.now)) };

    fn fmt<W: fmt::Write>(&self, f: &mut fmt::Formatter<W>) -> fmt::Result {
        let count = self
            .names
            .len()
            .min(self.verdicts.len())
            .min(self.said.len());
        for place in 0..count {
            let part = Part {
                name: bytes_at(self.names, place),
                verdict: verdict_at(self.verdicts, place),
                more: text_at(self.said, place),
            };
            write!(f, "{part}")?;
        }
        Ok(())
    }
}
