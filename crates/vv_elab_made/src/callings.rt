//! Calls that are being made.

use crate::nodes::made;
use sqlite_items::{Items, at};
use std::alloc::Global;
use vv_base::fault::{Fault, Memory, Rule, Span};
use vv_design::{ExprList, Form, NumberList};
use vv_elab_base::keys::{KeyPart, is_same_key};
use vv_elab_base::making::{Made, Making};
use vv_elab_base::objects::fit;
use vv_elab_base::sub::Sub;
use vv_elab_base::wanted::{Param, ParamValue, Wanted};
use vv_elab_plain::fixed::is_fixed;
use vv_elab_plain::plain::place_of;
use vv_elab_types::types::subtype;
use vv_held::Held;
use vv_held::held::{fitted, misfit, refused};
use vv_typed::{FnBody, Typed};
use vv_types::BaseType;

/// A call of a function that is being made: the place of its body, its parameters, the arguments that are not static, and the number
/// of the parameter of each of these.
#[derive(Drop)]
pub struct Calling<'u> {
    place: usize,
    body: &'u FnBody,
    params: Vec<Param>,
    formals: Vec<u32>,
    list: ExprList,
}

/// A call of a user function without arguments so far.
pub fn call_of<'u>(making: &mut Making<'u>, decl: u32) -> Result<Calling<'u>, Fault> {
    let Some(place) = place_of(making, decl) else {
        return Err(misfit());
    };
    let Some(body) = at(making.units.functions.as_slice(), place) else {
        return Err(misfit());
    };
    let params = params_of(making, body)?;
    Ok(Calling {
        place,
        body,
        params,
        formals: Vec::new(making.alloc),
        list: Items::new(making.alloc),
    })
}

/// The parameters of a function, with their subtypes.
fn params_of<'u>(making: &mut Making<'u>, body: &'u FnBody) -> Result<Vec<Param>, Fault> {
    let mut params = Vec::new(making.alloc);
    for objects in body.params.as_slice() {
        for ident in objects.idents.as_slice() {
            let sub = subtype(making, &objects.subtype)?;
            params.push(Param {
                decl: ident.decl,
                name: ident.name,
                sub,
                value: ParamValue::Absent,
            })?;
        }
    }
    Ok(params)
}

/// A static argument or default, as a value of its parameter.
fn held_argument<'u>(making: &mut Making<'u>, e: &Typed, sub: Sub) -> Result<Held, Fault> {
    let held = making.fold(e, Some(sub.extent))?;
    fitted(held, sub.extent, e.span)
}

impl<'u> Calling<'u> {
    /// The subtype of a parameter.
    pub fn wanted(&self, formal: u32) -> Result<Sub, Fault> {
        match self.params.get(formal as usize) {
            Some(param) => Ok(param.sub),
            None => Err(misfit()),
        }
    }

    /// A static argument.
    pub fn hold(&mut self, making: &mut Making<'u>, e: &Typed, formal: u32) -> Result<(), Fault> {
        making.node()?;
        let sub = self.wanted(formal)?;
        let held = held_argument(making, e, sub)?;
        if let Some(param) = self.params.get_mut(formal as usize) {
            param.value = ParamValue::Held(held);
        }
        Ok(())
    }

    /// An argument that is made.
    pub fn add(
        &mut self,
        making: &Making<'u>,
        of: Made,
        formal: u32,
        span: Span,
    ) -> Result<(), Fault> {
        let sub = self.wanted(formal)?;
        let of = fit(making, of, sub.extent, span)?;
        let sub = if sub.is_open() { of.sub } else { sub };
        self.formals.push(formal)?;
        self.list.push(of.expr)?;
        if let Some(param) = self.params.get_mut(formal as usize) {
            param.sub = sub;
            param.value = ParamValue::Made;
        }
        Ok(())
    }
}

/// Gives the parameters without arguments their defaults.
fn defaults<'u>(
    making: &mut Making<'u>,
    body: &'u FnBody,
    params: &mut Vec<Param>,
    span: Span,
) -> Result<(), Fault> {
    let mut k = 0;
    for objects in body.params.as_slice() {
        for _ in 0..objects.idents.len() {
            let sub = match params.get(k) {
                Some(param) => match param.value {
                    ParamValue::Absent => Some(param.sub),
                    _ => None,
                },
                None => None,
            };
            if let Some(sub) = sub {
                let Some(initial) = &objects.initial else {
                    return Err(misfit());
                };
                if !is_fixed(making, initial, true) {
                    return Err(refused(Rule::E1, span));
                }
                let held = held_argument(making, initial, sub)?;
                if let Some(param) = params.get_mut(k) {
                    param.value = ParamValue::Held(held);
                }
            }
            k = k.saturating_add(1);
        }
    }
    Ok(())
}

/// What tells the elaborated function apart.
fn key_of<'u>(making: &Making<'u>, params: &[Param]) -> Result<Vec<KeyPart>, Memory> {
    let mut key = Vec::new(making.alloc);
    for param in params {
        key.push(match &param.value {
            ParamValue::Held(held) => KeyPart::Held(held.copy(making.alloc)?),
            _ => KeyPart::Extent(param.sub.extent),
        })?;
    }
    Ok(key)
}

/// The call, whose arguments are all there.
pub fn called<'u>(
    making: &mut Making<'u>,
    of: Calling<'u>,
    base: BaseType,
    span: Span,
) -> Result<Made, Fault> {
    let Calling {
        place,
        body,
        mut params,
        formals,
        list,
    } = of;
    defaults(making, body, &mut params, span)?;
    let (plain, closed) = match at(making.plain.as_slice(), place) {
        Some(plain) => (plain.is_plain, plain.is_closed),
        None => return Err(misfit()),
    };
    if !plain {
        return Err(refused(Rule::E1, span));
    }
    let region = if closed { 0 } else { making.region };
    let numbers = numbers_of(making.alloc, params.as_slice(), formals.as_slice())?;
    let (function, extent) = elaborated(making, place, region, params)?;
    let form = Form::Call {
        function,
        formals: numbers,
        arguments: list,
    };
    let sub = Sub {
        base,
        extent: extent.extent,
    };
    Ok(made(making, form, sub, span))
}

/// The numbers of the parameters among those that are not static.
fn numbers_of(alloc: Global, params: &[Param], formals: &[u32]) -> Result<NumberList, Memory> {
    let mut numbers = Items::new(alloc);
    for formal in formals {
        let mut number: u32 = 0;
        for (k, param) in params.iter().enumerate() {
            if k < *formal as usize {
                if let ParamValue::Made = param.value {
                    number = number.saturating_add(1);
                }
            }
        }
        numbers.push(number)?;
    }
    Ok(numbers)
}

/// The number of an elaborated function, and its result. Where it is not there yet, the call stops and wants it.
fn elaborated<'u>(
    making: &mut Making<'u>,
    place: usize,
    region: u32,
    params: Vec<Param>,
) -> Result<(u32, Sub), Fault> {
    let key = key_of(making, params.as_slice())?;
    let mut found = None;
    if let Some(known) = at(making.elaborated.as_slice(), place) {
        for one in known.as_slice() {
            if one.region == region && is_same_key(one.key.as_slice(), key.as_slice()) {
                found = Some((one.number, one.nodes, one.result));
            }
        }
    }
    match found {
        Some((number, nodes, result)) => {
            making.more_nodes(nodes)?;
            Ok((number, result))
        }
        None => Err(making.want(Wanted {
            place,
            region,
            key,
            params,
        })),
    }
}
