//! Laws of the command line.
ghost use Rattle.jv_program_words.specs.Rows.Words.{WordRows};

/// Worked rows of words, computed: what they ask for, and in which kind others are refused.
pub fn word_rows()
    ensures { WordRows }
{}
