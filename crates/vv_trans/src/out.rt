//! What a translation gives.

use vv_base::text::ByteList;

/// The Verilog text and the map of names.
#[derive(Drop)]
pub struct Out {
    pub text: ByteList,
    pub map: ByteList,
}
