//! Sources of signals at their own level, and what the ports of the top may be.

use std::alloc::Global;
use vv_base::fault::{Memory, Rule};
use vv_design::{Design, Mode, Net, NetKind, Origin, Run, Scalar, Shape};
use vv_reads::Least;

/// Elements of a net that have a source at the net's own level.
#[derive(Clone, Copy, Debug, PartialEq, Eq, PartialOrd, Ord)]
struct Claim {
    net: u32,
    first: u32,
    end: u32,
}

/// Notes the signals of unresolved subtype that have two sources of one element at their own level: processes that drive them, and out
/// and inout ports that are joined with them.
pub fn check_sources(alloc: Global, design: &Design, least: &mut Least) -> Result<(), Memory> {
    let mut claims = Vec::new(alloc);
    for source in design.sources.as_slice() {
        if let Origin::Driver { proc: _, net } = &source.from {
            add_claim(design, *net, source.run, &mut claims)?;
        }
    }
    for net in design.nets.as_slice() {
        if let NetKind::Port {
            mode: Mode::Out | Mode::Inout,
            actual: Some(actual),
        } = net.kind
        {
            add_claim(design, actual, net.run(), &mut claims)?;
        }
    }
    claims.sort()?;
    let mut last: Option<Claim> = None;
    for claim in &claims {
        let mut end = claim.end;
        if let Some(before) = last
            && before.net == claim.net
        {
            if claim.first < before.end
                && let Some(net) = design.nets.get(claim.net as usize)
            {
                least.note(Rule::D1, net.span);
            }
            end = end.max(before.end);
        }
        last = Some(Claim {
            net: claim.net,
            first: claim.first,
            end,
        });
    }
    Ok(())
}

/// Adds elements of a net, where it is one of unresolved subtype.
fn add_claim(design: &Design, net: u32, run: Run, claims: &mut Vec<Claim>) -> Result<(), Memory> {
    match design.nets.get(net as usize) {
        Some(known) if !known.resolved => {
            claims.push(Claim {
                net,
                first: run.first,
                end: run.end(),
            })?;
            Ok(())
        }
        _ => Ok(()),
    }
}

/// Notes the ports of the top that go both ways or are no `std_ulogic` nor a vector of it.
pub fn check_ports(design: &Design, least: &mut Least) {
    for port in design.top.as_slice() {
        if let Some(net) = design.nets.get(port.net as usize)
            && (is_inout(net) || !is_outer(net.shape))
        {
            least.note(Rule::D7, net.span);
        }
    }
}

fn is_inout(net: &Net) -> bool {
    match net.kind {
        NetKind::Port {
            mode: Mode::Inout,
            actual: _,
        } => true,
        _ => false,
    }
}

/// Whether a shape is that of a `std_ulogic` or of a vector of some.
fn is_outer(shape: Shape) -> bool {
    match shape {
        Shape::Scalar(Scalar::Logic)
        | Shape::Vector {
            len: _,
            of: Scalar::Logic,
        } => true,
        _ => false,
    }
}
