//! What a scale makes of a value.
ghost use Rattle.std.specs.Prelude.{◌≡◌};
ghost use Rattle.gw_entries.specs.Scaling.{scaled_by};

use crate::row::Scale;

impl Scale {
    /// A value multiplied by the scale, truncated toward zero.
    pub fn apply(self, value: i32) -> i64
        ensures { result ≡ scaled_by self value }
    {
        i64::from(value) * i64::from(self.num) / i64::from(self.den)
    }
}
