//! Assignments.

use crate::keeper::{Keeper, Signal};
use sqlite_items::Boxed;
use vv_base::fault::{Memory, cannot_come};
use vv_base::text::Text;
use vv_design::{Expr, Target};
use vv_lexpr::{target_spot, value_at};
use vv_lpart::Run;
use vv_lrows::{Spot, reference};
use vv_lstate::Lowering;
use vv_vtree::{VReference, VSign};

impl Keeper<'_, '_> {
    /// An assignment to a net.
    pub fn signal(&mut self, target: &Target, value: &Expr) -> Result<(), Memory> {
        let width = self.low.net_layout(target.object)?.width();
        let sign = if self.register(target.object)?.direct {
            VSign::Nonblocking
        } else {
            VSign::Blocking
        };
        let spot = self.signal_spot(target)?;
        let reference = boxed_reference(self.low, spot)?;
        assign(self.low, reference, sign, value, width)
    }

    /// The bits of its register that an assignment to a net changes.
    fn signal_spot(&mut self, target: &Target) -> Result<Spot, Memory> {
        let signal = self.register(target.object)?;
        let low = signal.low;
        let register = signal.register.copy(self.low.alloc)?;
        let name = Text::from_slice(self.low.alloc, register.name.as_slice())?;
        let all = Run::whole(name, self.low.net_width(target.object)?);
        let size = target.whole.size();
        let spot = target_spot(target.parts.as_slice(), all, size, self.low)?;
        Ok(Spot {
            within: register,
            low: spot.low.saturating_sub(low),
            bits: spot.bits,
            offset: spot.offset,
        })
    }

    /// The register of a net.
    fn register(&self, net: u32) -> Result<&Signal, Memory> {
        let signals = self.signals.as_slice();
        match signals.binary_search_by_key(&net, |signal| signal.net) {
            Ok(at) => signals.get(at).ok_or(cannot_come()),
            Err(_) => Err(cannot_come()),
        }
    }

    /// An assignment to a variable.
    pub fn variable(&mut self, target: &Target, value: &Expr) -> Result<(), Memory> {
        let width = self.low.object(target.object)?.layout.width();
        let spot = self.variable_spot(target)?;
        let reference = boxed_reference(self.low, spot)?;
        assign(self.low, reference, VSign::Blocking, value, width)
    }

    /// The bits that an assignment to a variable changes.
    fn variable_spot(&mut self, target: &Target) -> Result<Spot, Memory> {
        let alloc = self.low.alloc;
        let object = self.low.object(target.object)?;
        let size = object.size;
        let name = match &object.name {
            Some(name) => Text::from_slice(alloc, name.as_slice())?,
            None => return Err(cannot_come()),
        };
        let run = Run::whole(name, object.width());
        target_spot(target.parts.as_slice(), run, size, self.low)
    }

    /// The result of a function.
    pub fn returned(&mut self, value: &Expr) -> Result<(), Memory> {
        let (Some(name), Some(layout)) = (&self.result, self.result_layout) else {
            return Ok(());
        };
        let name = Text::from_slice(self.low.alloc, name.as_slice())?;
        assign_result(self.low, name, value, layout.width())
    }
}

/// Assigns the result of a function.
fn assign_result(
    low: &mut Lowering<'_>,
    name: Text,
    value: &Expr,
    width: u32,
) -> Result<(), Memory> {
    let value = value_at(value, width, low)?;
    let run = Run::whole(name, value.width);
    low.assign(run.reference(), VSign::Blocking, value)
}

/// How a spot is written.
fn boxed_reference(low: &mut Lowering<'_>, spot: Spot) -> Result<Boxed<VReference>, Memory> {
    let reference = reference(low, spot)?;
    Ok(Boxed::new(low.alloc, reference)?)
}

/// Writes an assignment of an expression, whose scalars get `width` bits each.
fn assign(
    low: &mut Lowering<'_>,
    target: Boxed<VReference>,
    sign: VSign,
    value: &Expr,
    width: u32,
) -> Result<(), Memory> {
    let value = value_at(value, width, low)?;
    low.assign(target.into_inner(), sign, value)
}
