//! Names, by what they are of.

use gw_model::ObjectKey;
use std::alloc::{AllocError, Global};
use std::collections::HashMap;

/// What the points, the controls and the outstations of a site are called, as far as they have names.
#[derive(Drop)]
pub struct Names {
    /// The names of points and controls, by their information objects.
    objects: HashMap<ObjectKey, String>,
    /// Those of outstations, by their positions in the settings.
    outstations: HashMap<u8, String>,
}

impl Names {
    /// No names.
    pub fn new(alloc: Global) -> Names {
        Names {
            objects: HashMap::new(alloc),
            outstations: HashMap::new(alloc),
        }
    }

    /// Names a point or a control.
    pub fn name_object(&mut self, object: ObjectKey, name: String) -> Result<(), AllocError> {
        self.objects.insert(object, name)?;
        Ok(())
    }

    /// Names an outstation.
    pub fn name_outstation(&mut self, outstation: u8, name: String) -> Result<(), AllocError> {
        self.outstations.insert(outstation, name)?;
        Ok(())
    }

    /// What the point or the control with a common address and an address is called.
    pub fn of_object(&self, common_address: u16, address: u32) -> Option<&str> {
        let object = ObjectKey {
            common_address,
            address,
        };
        match self.objects.get(&object) {
            Some(name) => Some(name.as_str()),
            None => None,
        }
    }

    /// What an outstation is called.
    pub fn of_outstation(&self, outstation: u8) -> Option<&str> {
        match self.outstations.get(&outstation) {
            Some(name) => Some(name.as_str()),
            None => None,
        }
    }
}
