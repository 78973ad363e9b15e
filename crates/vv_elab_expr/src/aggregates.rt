//! Aggregates.

use crate::expressions::expression;
use sqlite_items::Items;
use vv_base::fault::{Fault, Span};
use vv_elab_base::making::{Made, Making};
use vv_elab_base::objects::fit;
use vv_elab_base::sub::element_of;
use vv_elab_made::arrangements::{arranged, bounds_by, choices};
use vv_held::Shape as Extent;
use vv_held::held::{misfit, narrow};
use vv_typed::Element;
use vv_types::BaseType;

/// An aggregate. It has the bounds that are wanted, or those of its choices, or those from 0 on.
#[cycle(expressions)]
pub fn aggregate<'u>(
    making: &mut Making<'u>,
    elements: &'u [Element],
    base: BaseType,
    span: Span,
    wanted: Option<Extent>,
) -> Result<Made, Fault> {
    let BaseType::Array(decl) = base else {
        return Err(misfit());
    };
    let mark = making.known(decl).sub;
    let mut element = element_of(making, mark);
    if let Some(extent) = wanted {
        if element.is_open() {
            element = element.with_outer(extent.inner);
        }
    }
    let mut chosen = Vec::new(making.alloc);
    let mut parts = Items::new(making.alloc);
    for (k, part) in elements.iter().enumerate() {
        choices(making, part, narrow(k)?, &mut chosen)?;
        let value = expression(making, &part.value, Some(element.extent))?;
        let value = fit(making, value, element.extent, part.value.span)?;
        if element.is_open() {
            element = element.with_outer(value.sub.extent.outer);
        }
        parts.push(value.expr)?;
    }
    let given = match wanted {
        Some(extent) => extent.outer,
        None => None,
    };
    let own = match (given, mark.extent.outer) {
        (Some(bounds), _) | (None, Some(bounds)) => Some(bounds),
        (None, None) => bounds_by(chosen.as_slice(), elements.len()),
    };
    match own {
        Some(bounds) => {
            arranged(
                making,
                base,
                span,
                chosen.as_slice(),
                parts,
                bounds,
                element,
            )
        }
        None => Err(misfit()),
    }
}
