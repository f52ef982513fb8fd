//! What holds of every play of three legs, as contracts of functions that do nothing.

ghost use Rattle.majority_laws.specs.Between.{InputsLieBetween};
ghost use Rattle.majority_laws.specs.CalmPlays.{OneFaultyLegIsCalm, QuietPlaysAreUndisturbed, TwoLegsAreSound};
ghost use Rattle.majority_laws.specs.EqualVotes.{LegsInStepVoteTheSame, VotesAreEqual};
ghost use Rattle.majority_laws.specs.Exchanging.{ExchangingLegsCarry, LegsInStepCarry, LegsInStepEndWell, SettledLegsCarry};
ghost use Rattle.majority_laws.specs.Judged.{SoundLegsJudgeFairly};
ghost use Rattle.majority_laws.specs.Majority.{CarriesBeforeUncalm, CarriesWhileCalm, MajorityCarries};
ghost use Rattle.majority_laws.specs.Recovering.{RecoversFromAnyState, RecoversInTime};
ghost use Rattle.majority_laws.specs.RecoveringToGood.{RecoversToGood};
ghost use Rattle.majority_laws.specs.Scripts.{ScriptsCanBePlayed, ScriptsCanBeRead};
ghost use Rattle.majority_laws.specs.Sound.{RefusedChangesNothing, SoundLegsAreGood, SoundLegsEndWell, SoundLegsWereGood};
ghost use Rattle.majority_laws.specs.Standing.{SoundLegsStandGood};
ghost use Rattle.majority_laws.specs.WorkedPlay.{FaultyLeg};
ghost use Rattle.majority_laws.specs.WorkedRecovery.{StrayLeg};

/// The majority carries: before the first scan that isn't calm the field outputs, the alarm ARITH,
/// the voted inputs and the sound legs' verdicts are those of the one controller without faults.
pub fn majority_carries()
    ensures of_a_script { MajorityCarries }
    ensures before_uncalm { CarriesBeforeUncalm }
    ensures while_calm { CarriesWhileCalm }
{}

/// While all scans are calm, a leg whose countdown is over stands where the one controller stands,
/// whatever its faults left behind, and ends so. Within a scan it has the one controller's run
/// behind the change point, and its own result is that run's.
pub fn sound_legs_are_good()
    ensures after { SoundLegsAreGood }
    ensures before { SoundLegsWereGood }
    ensures within { SoundLegsStandGood }
    ensures ends { SoundLegsEndWell }
{}

/// A sound leg agrees, or accuses the one suspect neighbour, exactly where that one's result isn't
/// the good one.
pub fn sound_legs_judge_fairly()
    ensures { SoundLegsJudgeFairly }
{}

/// A download that the one controller refuses changes neither it nor a sound leg.
pub fn refused_changes_nothing()
    ensures { RefusedChangesNothing }
{}

/// The voted time and each voted input lie between what any two sound legs read.
pub fn inputs_lie_between()
    ensures { InputsLieBetween }
{}

/// In a calm scan two legs at least are sound. Without fault lines all scans are calm and all legs
/// are sound. All scans are calm too where one leg alone has faults, whatever they are, as long as
/// it shows both its neighbours the same readings.
pub fn one_faulty_leg_is_calm()
    ensures two_sound { TwoLegsAreSound }
    ensures no_faults { QuietPlaysAreUndisturbed }
    ensures one_faulty { OneFaultyLegIsCalm }
{}

/// In a scan in which each leg shows both its neighbours the same readings, all three note the same
/// vote, calm or not and whatever their states: legs in step, and legs that exchange packets.
pub fn votes_are_equal()
    ensures noted { VotesAreEqual }
    ensures in_step { LegsInStepVoteTheSame }
{}

/// Legs that exchange packets carry the one controller by the notes that they make: legs in step,
/// legs that step in any order, and legs that played to the end over links that are settled.
pub fn exchanging_legs_carry()
    ensures in_step { LegsInStepCarry }
    ensures ends { LegsInStepEndWell }
    ensures steps { ExchangingLegsCarry }
    ensures settled { SettledLegsCarry }
{}

/// A script of which an engine refuses no block can be played, and each scan of a script can be
/// read.
pub fn scripts_can_be_played()
    ensures played { ScriptsCanBePlayed }
    ensures read { ScriptsCanBeRead }
{}

/// Beside two legs that have one run, a third one has it too after so many fair scans, from any
/// state that a leg can be in: the run that goes on by itself, with its text, words, epoch and
/// turn.
pub fn legs_recover_from_any_state()
    ensures in_two_rotations { RecoversFromAnyState }
    ensures in_time { RecoversInTime }
{}

/// Beside two legs that stand where the one controller of a script stands, a third one stands there
/// too after so many fair scans in which that one accepts no download, from any state that a leg
/// can be in.
pub fn legs_recover_to_good()
    ensures { RecoversToGood }
{}

/// A play with a leg that is replaced, drives false words and takes a download, worked by hand.
pub fn a_faulty_leg_is_carried()
    ensures { FaultyLeg }
{}

/// A run that goes on by itself, and a leg that counted otherwise and comes back, worked by hand.
pub fn a_stray_leg_comes_back()
    ensures { StrayLeg }
{}
