//! Laws of lines that take steps.

ghost use Rattle.debug_runs.specs.Laws.{LastStepsAreOfTheRun, PlainLinesAreTheScripts, TextsAreOfTheTrace, TracedLineIsTheLine};

/// A traced line leaves the state that it leaves untraced, prints the same, and has the same ending.
pub fn traced_line_is_the_line()
    ensures { TracedLineIsTheLine }
{}

/// With no stub and no watch, untraced RUN, STEP, CALL and LOAD are answered as in a script.
pub fn plain_lines_are_the_scripts()
    ensures { PlainLinesAreTheScripts }
{}

/// A line TRACE LAST leaves what RUN leaves, prints the same and has the same ending; and the steps of
/// which it shows the last ones are those that a trace of the whole run shows.
pub fn last_steps_are_of_the_run()
    ensures run { LastStepsAreOfTheRun }
    ensures texts { TextsAreOfTheTrace }
{}
