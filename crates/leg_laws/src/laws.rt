//! What holds of every play, as contracts of functions that do nothing.

ghost use Rattle.std.specs.Prelude.{List};
ghost use Rattle.tri_base.specs.declared.point.Point.{Point};
ghost use Rattle.engine_face.specs.Meaning.{Meaning};
ghost use Rattle.leg_laws.specs.Pieces.{DoesLines, JudgesOrLearns, TakesDownloads, VotesAndRuns};
ghost use Rattle.leg_laws.specs.Schedules.{FedStepsAreSteps};
ghost use Rattle.leg_laws.specs.WorkedLines.{LinesInOrder};
ghost use Rattle.leg_laws.specs.WorkedPlays.{ChangedProgram, FalseResult, MuteLeg, OneScan, OneWindow, PokedLeg, PokedRing, PokedTwice, ReplacedLeg, Scheduled, SwappedLeg, TenWindows, TwoFaced};
ghost use Rattle.leg_laws.specs.Laws.{GoesOnStarved, HaveOnePlay, NeverStuck, NoneIsStuck, NotesTakenKeepFollowing, PutsKeepFollowing, RoundsAreScans, ScriptsStayInStep, SettledHavePlayed, StartsCounted, StartsFollowing, StatesAreKept, StayInStep, StayJoined, StaysStarved, StepsGoOn, StepsKeepCounts, TakesKeepFollowing};

/// For every list of steps, at every moment, the legs' notes are those of three legs in step: of
/// the scans of which each leg has made a note; and while none is starved, of all, and a leg whose
/// last scan is over ends as in step.
pub fn legs_stay_in_step()
    ensures any_tapes { StayInStep }
    ensures of_a_script { ScriptsStayInStep }
{}

/// For every list of steps, at every moment, no step is enabled exactly where all legs are done.
pub fn legs_are_never_stuck()
    ensures { NeverStuck }
{}

/// A list of steps goes on with each step that its last exchange makes.
pub fn steps_go_on()
    ensures { StepsGoOn }
{}

/// How many packets were put and taken fits with the boxes at the start, and each step keeps that.
/// Where it holds, no step is enabled exactly where all legs are done.
pub fn counts_are_kept()
    ensures start { StartsCounted }
    ensures step { StepsKeepCounts }
    ensures stuck { NoneIsStuck }
{}

/// A leg follows a play on the packets that it takes: from its start on, through each put and each
/// take, and where a note is taken away.
pub fn legs_follow()
    ensures start { StartsFollowing }
    ensures put { PutsKeepFollowing }
    ensures take { TakesKeepFollowing }
    ensures note { NotesTakenKeepFollowing }
{}

/// A leg that found no memory goes on need by need, puts absent packets, and stays starved.
pub fn starved_legs_go_on()
    ensures needs { GoesOnStarved }
    ensures steps { StaysStarved }
{}

/// For every list of steps there are packets on which the legs follow the play, each packet of
/// a link taken or in its box.
pub fn legs_stay_joined()
    ensures { StayJoined }
{}

/// Legs whose packets go from one to the other stand, by what they took, where the three in step
/// stand.
pub fn linked_legs_have_one_play()
    ensures { HaveOnePlay }
{}

/// Three legs that followed a play to its end over links that are settled have played in step,
/// and no packet is left.
pub fn settled_legs_have_played()
    ensures { SettledHavePlayed }
{}

/// Two rounds of three legs in step are one scan, in which each takes what its neighbours put.
pub fn rounds_are_scans()
    ensures { RoundsAreScans }
{}

/// Three legs in step have at all times what a leg's state has to have: a program that builds, as
/// many words as it has, and numbers within their limits.
pub fn states_are_kept()
    ensures { StatesAreKept }
{}

/// Where a leg has memory, each of its steps that is enabled leads on as its needs say.
pub fn fed_steps_are_steps()
    ensures { FedStepsAreSteps }
{}

/// The pieces of a leg's scan, case by case.
pub fn pieces_go_by_cases()
    ensures lines { (m : Meaning) → DoesLines m }
    ensures change_point { (m : Meaning) → TakesDownloads m }
    ensures first_half { (m : Meaning) (points : List Point) → VotesAndRuns m points }
    ensures second_half { (m : Meaning) → JudgesOrLearns m }
{}

/// Plays that were worked by hand, as the definitions have them.
pub fn worked_plays()
    ensures lines { LinesInOrder }
    ensures one_scan { OneScan }
    ensures schedules { Scheduled }
    ensures mute_leg { MuteLeg }
    ensures poked_leg { PokedLeg }
    ensures poked_ring { PokedRing }
    ensures replaced_leg { ReplacedLeg }
    ensures two_faced { TwoFaced }
    ensures false_result { FalseResult }
    ensures one_window { OneWindow }
    ensures changed_program { ChangedProgram }
    ensures swapped_leg { SwappedLeg }
    ensures ten_windows { TenWindows }
    ensures poked_twice { PokedTwice }
{}
