//! Verdicts as they are printed.
ghost use Rattle.std.specs.Prelude.{Some, map};
ghost use Rattle.jv_limits.specs.Bytes.{bytes_of};
ghost use Rattle.jv_program_check.specs.Text.{check_line, check_text};

use jv_meaning_typing::Verdict;
use jv_program_base::{Escaped, ShownVerdict};
use std::fmt;

/// The line of a file: its name and its verdict.
#[derive(Clone, Copy)]
struct Line<'a> {
    name: &'a [u8],
    verdict: Verdict,
}

/// A line for each file.
#[derive(Clone, Copy)]
pub struct Lines<'a> {
    /// The names of the files.
    pub names: &'a [&'a [u8]],
    /// The verdicts on them.
    pub verdicts: &'a [Verdict],
}

impl fmt::Display for Line<'_> {
    ghost output = { λ line. Some (check_line line.name.now line.verdict) };

    fn fmt<W: fmt::Write>(&self, f: &mut fmt::Formatter<W>) -> fmt::Result {
        let name = Escaped(self.name);
        let verdict = ShownVerdict(self.verdict);
        write!(f, "{name}: {verdict}\n")
    }
}

impl fmt::Display for Lines<'_> {
    ghost output = { λ lines. Some (check_text (map bytes_of lines.names.now) lines.verdicts.now) };

    fn fmt<W: fmt::Write>(&self, f: &mut fmt::Formatter<W>) -> fmt::Result {
        for (name, verdict) in self.names.iter().zip(self.verdicts) {
            let line = Line {
                name,
                verdict: *verdict,
            };
            write!(f, "{line}")?;
        }
        Ok(())
    }
}
