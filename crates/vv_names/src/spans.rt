//! Where places end, and which lie in others.

use vv_base::fault::Span;

/// The offset behind a place.
pub fn end(span: Span) -> u32 {
    span.at.saturating_add(span.len)
}

/// Whether a place lies in another one.
pub fn lies_in(inner: Span, outer: Span) -> bool {
    inner.file == outer.file && inner.at >= outer.at && end(inner) <= end(outer)
}
