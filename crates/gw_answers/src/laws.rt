//! What holds of every answer.
ghost use Rattle.std.specs.Prelude.{◌≡◌, ◌<◌, ◌↔◌, ℕ, true, Bool, List, ◌∷◌, take, Some, Ok};
ghost use Rattle.std.specs.List.{AllByRecursion};
ghost use Rattle.gw_model.specs.declared.observation.Observation.{Observation as Observed};
ghost use Rattle.gw_model.specs.Clocks.{Clocks};
ghost use Rattle.gw_map.specs.Settings.{Setup, HasSingleAddresses};
ghost use Rattle.iec_apci.specs.declared.apdu.Asdu.{Asdu as AsduOctets};
ghost use Rattle.iec_asdu.specs.Packing.{taken_of};
ghost use Rattle.iec_command.specs.declared.command.Command.{Command as AnyCommand};
ghost use Rattle.iec_command.specs.Commands.{command_of};
ghost use Rattle.gw_judge.specs.Judging.{judged};
ghost use Rattle.gw_judge.specs.Refusals.{IsMalformed};
ghost use Rattle.gw_answers.specs.declared.outgoing.AsduAnswer.{AsduAnswer as AnyAnswer};
ghost use Rattle.gw_answers.specs.Answers.{answered as answered_by, places_for};
ghost use Rattle.gw_answers.specs.AtOnce.{Gets};
ghost use Rattle.gw_answers.specs.Meaning.{CanSendAnswer, Commands, IsSendable, IsSentBack, Means, Tells, meaning_of, packed_asdu};
ghost use Rattle.gw_answers.specs.Octets.{answer_octets, octets_in, packed_octets};
ghost use Rattle.gw_answers.specs.Wanted.{SpellsExecute, SpellsInterrogation};

/// What is written of an answer means what it was made of: the command or the observation that goes out, or the octets
/// of an ASDU that comes back as it came, but for its cause, and P/N, which is set.
pub fn answers_mean_what_they_were()
    ensures { (clocks : Clocks) (answer : AnyAnswer) → CanSendAnswer clocks answer
        → Means clocks answer (meaning_of clocks (answer_octets clocks answer)) }
{}

/// What is packed means as many observations from the front of its list as one ASDU carries.
pub fn packed_asdus_mean_their_observations()
    ensures { (clocks : Clocks) (cause originator : ℕ) (x : Observed) (xs : List Observed)
        → AllByRecursion (IsSendable clocks) (take (taken_of clocks (x ∷ xs)) (x ∷ xs))
        → meaning_of clocks (packed_octets clocks cause originator (x ∷ xs))
        ≡ Tells (packed_asdu clocks cause originator x xs) }
{}

/// A command that comes back means the command that came, with that cause and P/N: type, qualifier, T, originator,
/// addresses and value are as they came.
pub fn commands_come_back()
    ensures { (clocks : Clocks) (cause : ℕ) (came back : List ℕ) (c : AnyCommand) → command_of came ≡ Ok c
        → IsSentBack cause came back
        → meaning_of clocks back ≡ Commands (record c { cause = cause; negative = true }) }
{}

/// What an ASDU gets for an answer at once, each answer apart: it comes back exactly where a cause from 44 to 47 is due;
/// it is confirmed negatively exactly where it is an interrogation that begins no answer; an observation is told exactly
/// where the picture shows it of the row that is read. All else gets nothing at once.
pub fn answers_are_due()
    ensures { (setup : Setup) (picture : List Observed) (pending : Bool) (asdu : AsduOctets) (answer : AnyAnswer)
        → HasSingleAddresses setup.rows setup.controls
        → (answered_by setup picture pending asdu (judged setup (octets_in asdu)) ≡ Some answer)
        ↔ Gets setup picture pending asdu answer }
{}

/// How many places have to be free for what is answered to an ASDU that isn't malformed, by its octets: none exactly for
/// an interrogation that is accepted; two exactly for an execute with a known cause and a known common address; one for
/// all else.
pub fn places_are_wanted()
    ensures none { (setup : Setup) (pending : Bool) (octets : List ℕ) → (IsMalformed octets → ⊥)
        → (places_for pending (judged setup octets) ≡ 0) ↔ SpellsInterrogation setup pending octets }
    ensures two { (setup : Setup) (pending : Bool) (octets : List ℕ) → (IsMalformed octets → ⊥)
        → (places_for pending (judged setup octets) ≡ 2) ↔ SpellsExecute setup octets }
    ensures one { (setup : Setup) (pending : Bool) (octets : List ℕ) → (IsMalformed octets → ⊥)
        → (places_for pending (judged setup octets) ≡ 1)
        ↔ ((SpellsInterrogation setup pending octets → ⊥) × (SpellsExecute setup octets → ⊥)) }
{}
