//! Nets of the design.

use crate::lowering::Lowering;
use vv_base::fault::{Memory, cannot_come};
use vv_base::text::Text;
use vv_lpart::{Layout, Run};

impl Lowering<'_> {
    /// The name of a net within its module.
    pub fn net_name(&self, net: u32) -> Result<Text, Memory> {
        let name = self.names.get(net as usize).ok_or(cannot_come())?;
        Text::from_slice(self.alloc, name.as_slice())
    }

    /// The layout of a net.
    pub fn net_layout(&self, net: u32) -> Result<Layout, Memory> {
        Ok(Layout::of(&self.design.net(net)?.subtype))
    }

    /// How many bits a net has.
    pub fn net_width(&self, net: u32) -> Result<u32, Memory> {
        let net = self.design.net(net)?;
        Ok(
            Layout::of(&net.subtype)
                .width()
                .saturating_mul(net.shape.size()),
        )
    }

    /// All of a net.
    pub fn net_run(&self, net: u32) -> Result<Run, Memory> {
        Ok(Run::whole(self.net_name(net)?, self.net_width(net)?))
    }
}
