//! Worked examples of the definitions, as the contract of an empty function.
ghost use Rattle.ll_script.specs.Worked.{WorkedAnswers, WorkedLines};

/// States what the definitions say of example lines: what each makes happen, and how answers are spelled.
pub fn worked_lines()
    ensures lines { WorkedLines }
    ensures answers { WorkedAnswers }
{}
