//! Laws of what a guest shows.

ghost use Rattle.jv_meaning_machine.specs.Laws.Shown.{EndedShowsTheSame, FaultsShowNothing, FaultsStay, JudgedByVerdicts, OneJudged, ShowsMore, ShowsNoMain, ShowsOneThing};

use jv_meaning_typing::one_judgement_of_file;
use jv_meaning_world::one_content;

/// What is to be found of files is one thing.
pub fn one_judged()
    ensures { OneJudged }
{
    one_content();
    one_judgement_of_file();
}

/// Where files have contents, and each content a verdict, there is something to be found of them.
pub fn judged_by_verdicts()
    ensures { JudgedByVerdicts }
{}

/// A guest without files shows that it has no main method, whatever its main class is called.
pub fn shows_no_main()
    ensures { ShowsNoMain }
{}

/// What a guest shows alone after so many of its own steps is one thing.
pub fn shows_one_thing()
    ensures { ShowsOneThing }
{
    one_judged();
}

/// Where its machine meets a fault, a guest shows nothing.
pub fn faults_show_nothing()
    ensures { FaultsShowNothing }
{
    one_judged();
}

/// Once a guest shows an end, it shows the same after any more steps, but for their number, whatever it is fed.
pub fn ended_shows_the_same()
    ensures { EndedShowsTheSame }
{}

/// A fault within some number of steps is one within any greater number.
pub fn faults_stay()
    ensures { FaultsStay }
{}

/// What a guest shows it has shown the front of after fewer steps.
pub fn shows_more()
    ensures { ShowsMore }
{}
