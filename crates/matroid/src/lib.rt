// The theory of choice, kernels and deferred acceptance over matroids. Each function stands for a theorem:
// it does nothing, and its contract is what is proved.
#![tactic(auto)]

ghost use Rattle.matroid.specs.Theorems.{ChoiceExists, ChoiceFromAPart, ChoiceIsIndependent, ChoiceIsUnique, ChoiceLeavesTheDominated, ChoiceSpans};
ghost use Rattle.matroid.specs.Theorems.{EndsAlways, EndsOnce, KernelsAreAlike, ListIsAKernel, ListIsBest, TurnsBounded};
ghost use Rattle.matroid.specs.Theorems.{AssignableByAssignment, InsideByParents, LaminarIsMatroid, TransversalIsMatroid, TruncationIsMatroid};

// What a side chooses from a set it also chooses from every part of that set that holds it.
pub fn choice_is_kept_in_a_part()
    ensures { ChoiceFromAPart }
{}

// A side has a choice from every set.
pub fn a_choice_exists()
    ensures { ChoiceExists }
{}

// A side has no two choices from a set.
pub fn a_choice_is_unique()
    ensures { ChoiceIsUnique }
{}

// A choice is independent.
pub fn a_choice_is_independent()
    ensures { ChoiceIsIndependent }
{}

// A choice spans all that it was chosen from.
pub fn a_choice_spans_its_source()
    ensures { ChoiceSpans }
{}

// A choice leaves out exactly what it dominates of the set that it was chosen from.
pub fn a_choice_leaves_out_what_it_dominates()
    ensures { ChoiceLeavesTheDominated }
{}

// Deferred acceptance ends.
pub fn deferred_acceptance_ends()
    ensures { EndsAlways }
{}

// Deferred acceptance takes at most one turn more than there are live applications.
pub fn turns_are_bounded()
    ensures { TurnsBounded }
{}

// Its outcome is determined: two runs have the same list and the same turn count.
pub fn the_outcome_is_determined()
    ensures { EndsOnce }
{}

// The list of deferred acceptance is a kernel.
pub fn the_list_is_a_kernel()
    ensures { ListIsAKernel }
{}

// Each application of every kernel is on the list, or the list dominates it on side one.
pub fn the_list_is_best_for_side_one()
    ensures { ListIsBest }
{}

// Every kernel spans, on each side, the same live applications as the list, and has as many members.
pub fn kernels_are_alike()
    ensures { KernelsAreAlike }
{}

// The sets that keep every cap of a laminar family of groups are the independent sets of a matroid.
pub fn laminar_caps_make_a_matroid()
    ensures { LaminarIsMatroid }
{}

// A group lies inside itself and inside each group that its parent lies inside, and inside no other.
pub fn groups_lie_inside_by_parents()
    ensures { InsideByParents }
{}

// The test says yes exactly when there is an assignment of different allowed places.
pub fn assignable_means_an_assignment()
    ensures { AssignableByAssignment }
{}

// The sets whose members can be given different allowed places are the independent sets of a matroid.
pub fn transversals_are_matroids()
    ensures { TransversalIsMatroid }
{}

// The independent sets of a matroid that have no more members than a cap are those of a matroid.
pub fn truncations_are_matroids()
    ensures { TruncationIsMatroid }
{}
