//! What may be asked for.
ghost use Rattle.std.specs.Prelude.{◌≡◌};
ghost use Rattle.jv_program_words.specs.Settings.{usual_options};

/// What each guest may use, how many steps it gets, which guest is fed, which one's output is written as it is, whether the report is JSON,
/// or has the places of last throws, and what is told besides.
#[derive(Clone, Copy)]
pub struct RunOptions {
    /// The cells of each guest's objects.
    pub cells: u32,
    /// The words of each guest's frames.
    pub words: u32,
    /// The bytes that each guest may write.
    pub output: u32,
    /// The most steps of a turn, at least 1.
    pub quantum: u32,
    /// The most rounds of turns, at least 1.
    pub rounds: u32,
    /// The number of the guest that is fed what comes on standard input, from 1 to 64, where one is.
    pub stdin: Option<u32>,
    /// The number of the guest whose output is written as it is, from 1 to 64, where one is.
    pub raw: Option<u32>,
    /// Whether the report is JSON.
    pub json: bool,
    /// Whether a report that isn't JSON has the places of last throws.
    pub places: bool,
    /// Whether it is told how far the run is.
    pub progress: bool,
    /// Whether it is told how long the processor took.
    pub time: bool,
}

/// How verdicts are explained.
#[derive(Clone, Copy)]
pub struct ExplainOptions {
    /// Whether the report is JSON.
    pub json: bool,
    /// Whether the references of an accepted class that don't resolve are told.
    pub links: bool,
    /// Whether the methods of an accepted class are listed, with the frame before each instruction.
    pub frames: bool,
}

/// What the words of the command line ask for.
#[derive(Drop)]
pub enum Settings<'a> {
    /// To run the guests in folders, with these options, and with the library in a folder where one is named.
    Run(RunOptions, Option<&'a str>, Vec<&'a str>),
    /// To check files, with a report in JSON or not, and with the library in a folder where one is named.
    Check(bool, Option<&'a str>, Vec<&'a str>),
    /// To explain the verdicts on files, with these options, and with the library in a folder where one is named.
    Explain(ExplainOptions, Option<&'a str>, Vec<&'a str>),
}

/// What holds where no option is used: 65,536 cells, words and bytes of output, and 10,000 rounds of turns of 1,000 steps.
pub fn usual_options() -> RunOptions
    ensures { result ≡ usual_options }
{
    RunOptions {
        cells: 65_536,
        words: 65_536,
        output: 65_536,
        quantum: 1_000,
        rounds: 10_000,
        stdin: None,
        raw: None,
        json: false,
        places: false,
        progress: false,
        time: false,
    }
}
