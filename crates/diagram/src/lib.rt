// Diagrams, markings, runs and soundness: the words that every later promise is made in, and what holds of them.
// Each function carries one theorem.
#![tactic(auto)]

ghost use Rattle.diagram.specs.Decided.{CompleteRunsAreListed, CompletenessIsDecided, SoundnessIsDecided};
ghost use Rattle.diagram.specs.LawfulDrawn.{LawfulnessIsTold};
ghost use Rattle.diagram.specs.Reducing.{ReductionsAreBounded, TheVerdictIsRight, ReductionDecides};
ghost use Rattle.diagram.specs.Meaning.{MadeLabelsBelong, MergingKeepsTheMeaning, ShortcuttingKeepsTheMeaning, MovingKeepsTheMeaning};
ghost use Rattle.diagram.specs.Progress.{TakingKeepsMarkingsLawful, RunsAreBounded};
ghost use Rattle.diagram.specs.RunLabels.{ListsJoinAlike};
ghost use Rattle.diagram.specs.Worked.{WorkedTable};

use analysis::kind::Kind;

pub mod rows;

// Taking a row keeps a marking lawful.
pub fn taking_keeps_markings_lawful_holds()
    ensures { TakingKeepsMarkingsLawful }
{}

// No run goes on for ever.
pub fn runs_are_bounded_holds()
    ensures { RunsAreBounded }
{}

// There is a list of exactly the complete runs.
pub fn complete_runs_are_listed_holds()
    ensures { CompleteRunsAreListed }
{}

// A diagram given by masks and rows that passes the test is lawful.
pub fn lawfulness_is_told_holds()
    ensures { LawfulnessIsTold }
{}

// Taking the rows tells whether a run is complete.
pub fn completeness_is_decided_holds()
    ensures { CompletenessIsDecided }
{}

// Walking the markings tells whether a diagram is sound.
pub fn soundness_is_decided_holds()
    ensures { SoundnessIsDecided }
{}

// The join over all complete runs does not depend on how they are listed, for any kind of label.
pub fn lists_join_alike_holds<K: Kind>()
    ensures { ListsJoinAlike K.Kind.algebra }
{}

// Three diagrams worked by hand, and three wrong rules told apart.
pub fn worked_table_holds()
    ensures { WorkedTable }
{}

// A label belongs to the set that it is made for, whatever its bytes, for any kind of label.
pub fn made_labels_belong_holds<K: Kind>()
    ensures { MadeLabelsBelong K.Kind.algebra }
{}

// A merge that may be taken keeps lawfulness, labels and meaning, for any kind of label.
pub fn merging_keeps_the_meaning_holds<K: Kind>()
    ensures { MergingKeepsTheMeaning K.Kind.algebra }
{}

// A shortcut that may be taken keeps lawfulness, labels and meaning, for any kind of label.
pub fn shortcutting_keeps_the_meaning_holds<K: Kind>()
    ensures { ShortcuttingKeepsTheMeaning K.Kind.algebra }
{}

// Any sequence of moves that may be taken keeps lawfulness, labels and meaning, for any kind of label.
pub fn moving_keeps_the_meaning_holds<K: Kind>()
    ensures { MovingKeepsTheMeaning K.Kind.algebra }
{}

// No reduction by merges and shortcuts into steps with one outcome goes on for ever, for any kind of label.
pub fn reductions_are_bounded_holds<K: Kind>()
    ensures { ReductionsAreBounded K.Kind.algebra }
{}

// Where nothing is left to take, one row from the start to the end tells a sound diagram.
pub fn the_verdict_is_right_holds()
    ensures { TheVerdictIsRight }
{}

// Repeating the least move decides soundness and tells the join, for any kind of label.
pub fn reduction_decides_holds<K: Kind>()
    ensures { ReductionDecides K.Kind.algebra }
{}
