//! Laws of runs: each is the contract of a function that does nothing.

ghost use Rattle.std.specs.Prelude.{[], ◌++◌, Some};
ghost use Rattle.iref.specs.Rules.{Text};
ghost use Rattle.iref_batch.specs.Runs.{AnswersAll, with_newline};

/// A file is cut where a line ends, and its two pieces are answered by two runs. What they write,
/// joined, answers the file.
#[tactic(auto, using(crate::proofs::EndLemmas::joined))]
pub fn runs_over_pieces_answer_the_whole()
    ensures { (first second out more : Text)
        → AnswersAll (with_newline first) [] (Some out)
        → AnswersAll second [] (Some more)
        → AnswersAll (with_newline first ++ second) [] (Some (out ++ more)) }
{}
