//! Laws of faithful traces: these functions do nothing but state them.
ghost use Rattle.ideal_trace.specs.Counts.{CountsAreOfSteps};
ghost use Rattle.ideal_trace.specs.CutBack.{CutsBack};
ghost use Rattle.ideal_trace.specs.IdealRuns.{FaithfulRunsAreIdeal};
ghost use Rattle.ideal_trace.specs.LooseRuns.{RunsOnTreeAreLooselyIdeal};
ghost use Rattle.ideal_trace.specs.Prefixes.{FaithfulRunsAreFronts};
ghost use Rattle.ideal_trace.specs.SameSteps.{SameMachinesStepAlike};

/// The bus machine of a faithful trace is the ideal machine, on the open words that the secure program read.
pub fn faithful_runs_are_ideal()
    ensures law { FaithfulRunsAreIdeal }
{}

/// Where the tree's reads are faithful, and the log reads that a passed check has covered, all reads are faithful before each byte is
/// sent, before each check that passed, and wherever the open epoch holds no log read.
pub fn cuts_back()
    ensures law { CutsBack }
{}

/// What a faithful run has sent and written is a front of what the ideal machine sends and writes, and all of it at the program's end.
pub fn faithful_runs_are_fronts()
    ensures law { FaithfulRunsAreFronts }
{}

/// Where the tree's reads are faithful, whatever the log and the open words gave, the bus machine is the ideal machine on which logged
/// words are loose too, so that it is never refused.
pub fn runs_on_tree_are_loosely_ideal()
    ensures law { RunsOnTreeAreLooselyIdeal }
{}

/// How many instructions of a run asked for a check or for a suspension is told by the machine's own counts.
pub fn counts_are_of_steps()
    ensures law { CountsAreOfSteps }
{}

/// Machines that are the same but for memory where no word starts ask for the same, and stay the same in each step.
pub fn same_machines_step_alike()
    ensures law { SameMachinesStepAlike }
{}
