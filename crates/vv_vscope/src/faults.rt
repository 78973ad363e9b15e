//! The least place of each rule.

use vv_vtree::{VCode, VFault};

/// For each rule on names, sizes, limits and drivers the least offset at which it is broken.
#[derive(Clone, Copy, Debug, PartialEq, Eq)]
pub struct Faults {
    names: Option<u64>,
    sizes: Option<u64>,
    limits: Option<u64>,
    drivers: Option<u64>,
}

/// The lesser one of a place and a place that is there.
fn least(known: Option<u64>, at: u64) -> Option<u64> {
    match known {
        Some(other) if other <= at => Some(other),
        _ => Some(at),
    }
}

impl Faults {
    pub fn new() -> Faults {
        Faults {
            names: None,
            sizes: None,
            limits: None,
            drivers: None,
        }
    }

    /// Notes a place of V3.
    pub fn name(&mut self, at: u64) {
        self.names = least(self.names, at);
    }

    /// Notes a place of V4.
    pub fn size(&mut self, at: u64) {
        self.sizes = least(self.sizes, at);
    }

    /// Notes a place of V8.
    pub fn limit(&mut self, at: u64) {
        self.limits = least(self.limits, at);
    }

    /// Notes a place of V5.
    pub fn driver(&mut self, at: u64) {
        self.drivers = least(self.drivers, at);
    }

    /// The refusal, where a rule is broken. The order of the rules goes before that of the offsets.
    pub fn refusal(&self) -> Result<(), VFault> {
        let (code, at) = match (self.names, self.sizes, self.limits, self.drivers) {
            (Some(at), _, _, _) => (VCode::V3, at),
            (None, Some(at), _, _) => (VCode::V4, at),
            (None, None, Some(at), _) => (VCode::V8, at),
            (None, None, None, Some(at)) => (VCode::V5, at),
            (None, None, None, None) => return Ok(()),
        };
        Err(VFault::Refused { code, at })
    }
}
