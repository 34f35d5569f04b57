//! Settings that copies of a hub have in common.
ghost use Rattle.std.specs.Prelude.{◌≡◌, IfOk};

use gw_map::Settings;
use gw_model::Memory;
use std::alloc::Global;
use std::marker::Model;
use std::sync::Arc;

/// Settings, which never change, so that copies share them.
#[derive(Drop)]
pub struct Common {
    settings: Arc<Settings>,
}

impl Model for Common {
    ghost use Rattle.std.specs.Arc.{arc_value};
    ghost use Rattle.gw_map.specs.Settings.{Setup};

    ghost Value = { Setup };

    ghost view = { λ c. arc_value c.settings };
}

impl Common {
    /// Settings that nobody shares yet.
    pub fn new(alloc: Global, settings: Settings) -> Result<Common, Memory>
        ensures { IfOk result (λ common. common ≡ settings) }
    {
        let settings = Arc::new(alloc, settings)?;
        Ok(Common { settings })
    }

    /// The same settings.
    pub fn copy(&self) -> Result<Common, Memory>
        ensures { IfOk result (λ common. common ≡ self.now) }
    {
        let settings = Arc::try_clone(&self.settings)?;
        Ok(Common { settings })
    }

    /// The settings.
    pub fn get(&self) -> &Settings
        ensures { result.now ≡ self.now }
    {
        &self.settings
    }
}
