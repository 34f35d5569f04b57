//! The clocks of the station.
#![tactic(auto, unfolding(gw_model::specs::Rule::IsRuleOrNone))]

ghost use Rattle.std.specs.Prelude.{◌≡◌, pos, negsuc, ◌≤ℤ◌, ◌&&◌};
ghost use Rattle.gw_model.specs.Rule.{IsRuleOrNone};
ghost use Rattle.gw_model.proofs.Rules.{IsRuleOrNone-prop};

use gw_model::ClockRule;

/// How many minutes the clocks of the station are ahead of UTC outside of summer time, from -840 to 840; and the rule for
/// summer time, if there is one: where by it they are 60 minutes further ahead, they show summer time.
#[derive(Clone, Copy)]
pub struct Zone {
    pub offset_minutes: i16,
    pub rule: Option<ClockRule>,
    pub ghost from: { negsuc 839 ≤ℤ offset_minutes },
    pub ghost to: { offset_minutes ≤ℤ pos 840 },
    pub ghost rule_in: { IsRuleOrNone rule } by { IsRuleOrNone-prop rule },
}

impl Zone {
    ghost use Rattle.gw_model.specs.Clocks.{tells_summer, minutes_ahead};
    ghost use Rattle.gw_time.specs.Rule.{clocks_of};

    /// Coordinated universal time.
    pub const UTC: Zone = Zone {
        offset_minutes: 0,
        rule: None,
    };

    /// How many minutes the clocks are ahead of UTC, in summer time or outside of it.
    #[tactic(auto, unfolding(crate::specs::Rule::clocks_of))]
    pub(crate) fn minutes_ahead(&self, summer: bool) -> i16
        ensures minutes { result ≡ minutes_ahead (clocks_of self.now) summer }
        ensures from { negsuc 839 ≤ℤ result }
        ensures to { result ≤ℤ pos 900 }
    {
        if summer {
            self.offset_minutes + 60
        } else {
            self.offset_minutes
        }
    }

    /// Whether a civil time with this SU is one of summer time: SU is looked at where there is a rule.
    #[tactic(auto, unfolding(crate::specs::Rule::clocks_of))]
    pub(crate) fn is_of_summer(&self, summer: bool) -> bool
        ensures { result ≡ (tells_summer (clocks_of self.now) && summer) }
    {
        self.rule.is_some() && summer
    }
}
