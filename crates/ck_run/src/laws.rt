//! What is true of runs, whatever the structure.
ghost use Rattle.ck_run.specs.Laws.{HoldsFirst, IsKeptByEachStep, HoldsAlways, AllowsEachStep, RunsBegin};

/// What a structure claims of its words and of what its tokens did, at each moment of each true run of its calls. It is about runs alone,
/// so no value of such a type is made.
pub trait Invariant<C> {
    ghost use Rattle.ck_run.specs.Machine.{Claim};

    // The program of states, and the fact.
    ghost claim: { Claim C };
}

/// Induction along a run: what holds at the opening and is kept by each step that the program allows holds at each moment of each true
/// run, whatever the schedule.
pub fn holds_along_law<C, I: Invariant<C>>()
    requires first { HoldsFirst I.claim }
    requires kept { IsKeptByEachStep I.claim }
    ensures { HoldsAlways I.claim }
{}

/// At each step of a true run the program allows the step after what its token did before, and a load or an exchange finds the number
/// that stands in its word by then. What is past at a moment of a true run is a true run.
pub fn each_step_law<C, I: Invariant<C>>()
    ensures allowed { AllowsEachStep I.claim.machine }
    ensures begins { RunsBegin I.claim.machine }
{}
