//! The engine as its callers see it.

use crate::build::{Builder, Frame, Made};
use crate::layout::Layout;
use sqlite_items::Items;
use std::alloc::Global;
use vv_base::fault::Memory;
use vv_bits::{Bits4, V4};
use vv_engine4::code::{Field, How, Instr};
use vv_engine4::lists::{Entry, Watch, Watches};
use vv_engine4::pair::{Pair, ZEROS};
use vv_engine4::run::{Code, Way};
use vv_engine4::state::{Network, State};
use vv_engine4::store::{Store, mask_in, span_of};
use vv_flat::{FExpr, Flat, FlatBit, FlatFunction, FlatItem, Place};
use vv_vtree::VEdge;

/// New bits of an object.
#[derive(Drop)]
pub struct Change4 {
    pub object: usize,
    pub bits: Bits4,
}

pub type Change4List = Items<Change4>;

/// New bits of inputs of the top.
#[derive(Drop)]
pub struct Row4 {
    pub changes: Change4List,
}

/// The bits of all objects as they are shown, the leftmost bit of each first.
#[derive(Drop)]
struct Shown {
    bits: Vec<V4>,
    /// Where each object has its first bit.
    starts: Vec<usize>,
    /// For each word the places of its bits: that of the lowest bit of a mask, and those before it.
    places: Watches,
    /// How many words have bits of the design.
    words: u32,
}

/// The engine of a flat design.
#[derive(Drop)]
pub struct Sim4<'f> {
    flat: &'f Flat,
    code: Code,
    way: Way,
    state: State,
    shown: Shown,
    /// Where the bits of inputs lie.
    bits: Layout,
}

impl<'f> Sim4<'f> {
    /// The engine of a flat design, with all its memory.
    pub fn new(alloc: Global, flat: &'f Flat) -> Result<Sim4<'f>, Memory> {
        let mut builder = Builder::new(alloc);
        lay_bits(&mut builder, flat)?;
        let words = builder.next_word()?;
        let functions = lay_functions(&mut builder, flat.functions.as_slice())?;
        let mut wires = Wires::new(alloc);
        let items = lay_items(&mut builder, &mut wires, flat)?;
        let shown = Shown::new(alloc, &builder.bits, flat, words)?;
        let back = vec![in alloc; 0u32; functions.len().saturating_add(1)]?;
        let number = u32::try_from(items.len()).map_err(|_| Memory)?;
        let network = wires.network(alloc, words)?;
        let Made {
            words: image,
            instrs,
            bits,
        } = builder.finish();
        Ok(Sim4 {
            flat,
            code: Code {
                instrs,
                items,
                functions,
            },
            way: Way::new(back),
            state: State::new(alloc, Store::new(image), network, number, words)?,
            shown,
            bits,
        })
    }

    /// Row 0: the inputs of the row have these bits, and each other input is x.
    pub fn power(&mut self, start: &Row4) {
        for change in start.changes.as_slice() {
            self.take_bits(change, false);
        }
        for (number, item) in self.flat.items.as_slice().iter().enumerate() {
            if let (FlatItem::Assign { .. }, Ok(number)) = (item, u32::try_from(number)) {
                self.state.active.add(number);
            }
        }
        self.state.settle(&self.code, &mut self.way);
        self.state.changed.clear();
        for word in 0..self.shown.words {
            self.shown.show(word, self.state.store.get(word));
        }
    }

    /// The next row: the inputs of the row have these bits from now on.
    pub fn row(&mut self, row: &Row4) {
        for change in row.changes.as_slice() {
            self.take_bits(change, true);
        }
        self.state.settle(&self.code, &mut self.way);
        for place in 0..self.state.changed.count() {
            let word = self.state.changed.at(place);
            self.shown.show(word, self.state.store.get(word));
        }
        self.state.changed.clear();
    }

    /// The present bits of an object, leftmost first.
    pub fn value(&self, object: usize) -> Option<&[V4]> {
        let start = *self.shown.starts.get(object)?;
        let width = self.flat.objects.get(object)?.width as usize;
        self.shown.bits.get(start..start.saturating_add(width))
    }

    /// Gives an object new bits, with or without events.
    fn take_bits(&mut self, change: &Change4, events: bool) {
        let Some(object) = self.flat.objects.get(change.object) else {
            return;
        };
        let field = self.bits.field(Place {
            first: object.first,
            width: object.width,
        });
        let bits = change.bits.as_slice();
        for word in 0..span_of(field) {
            let mask = mask_in(field, word);
            let new = word_of(bits, field, word);
            let at = field.at.saturating_add(word);
            if events {
                self.state.change(at, new, mask);
            } else {
                let old = self.state.store.get(at);
                self.state.store.set(at, old.merged(new, mask));
            }
        }
    }
}

/// What bits, leftmost first, give to the k-th word of a field.
fn word_of(bits: &[V4], field: Field, word: u32) -> Pair {
    let mut pair = ZEROS;
    for (number, bit) in bits.iter().rev().enumerate() {
        let place = (number as u64).saturating_add(u64::from(field.shift));
        if place / 64 == u64::from(word) {
            pair = pair.with_bit(*bit, (place % 64) as u32);
        }
    }
    pair
}

impl Shown {
    fn new(alloc: Global, layout: &Layout, flat: &Flat, words: u32) -> Result<Shown, Memory> {
        let mut starts = Vec::new(alloc);
        let mut entries = Vec::new(alloc);
        let mut count: u32 = 0;
        for object in flat.objects.as_slice() {
            starts.push(count as usize)?;
            count = count.checked_add(object.width).ok_or(Memory)?;
            let field = layout.field(Place {
                first: object.first,
                width: object.width,
            });
            for word in 0..span_of(field) {
                let before = word.saturating_mul(64).saturating_sub(field.shift);
                entries.push(Entry {
                    word: field.at.saturating_add(word),
                    watch: Watch {
                        mask: mask_in(field, word),
                        of: count.saturating_sub(before).saturating_sub(1),
                    },
                })?;
            }
        }
        Ok(Shown {
            bits: vec![in alloc; V4::X; count as usize]?,
            starts,
            places: Watches::of(alloc, words, entries.as_slice())?,
            words,
        })
    }

    /// Shows the bits of a word.
    fn show(&mut self, word: u32, pair: Pair) {
        for watch in self.places.list(word) {
            let first = watch.mask.trailing_zeros();
            for number in 0..watch.mask.count_ones() {
                let place = watch.of.saturating_sub(number);
                if let Some(bit) = self.bits.get_mut(place as usize) {
                    *bit = pair.bit(first.saturating_add(number));
                }
            }
        }
    }
}

/// What each bit is at first.
fn start_of(bit: FlatBit) -> V4 {
    match bit {
        FlatBit::Input | FlatBit::Driven => V4::X,
        FlatBit::Undriven => V4::Z,
        FlatBit::Reg(bit) => bit,
    }
}

/// Lays the bits of the design into words, so that each object that is no part of another one has words of its own.
fn lay_bits(builder: &mut Builder, flat: &Flat) -> Result<(), Memory> {
    let mut ends = vec![in builder.alloc; 0u32; flat.bits.len()]?;
    for object in flat.objects.as_slice() {
        if let Some(end) = ends.get_mut(object.first as usize) {
            *end = (*end).max(object.first.saturating_add(object.width));
        }
    }
    let mut end: u32 = 0;
    let mut pair = ZEROS;
    let mut place: u32 = 0;
    for (number, bit) in flat.bits.as_slice().iter().enumerate() {
        let number = u32::try_from(number).map_err(|_| Memory)?;
        if number == end {
            if place > 0 {
                builder.words.push(pair)?;
            }
            pair = ZEROS;
            place = 0;
            end = ends.get(number as usize).copied().unwrap_or(0);
            end = end.max(number.saturating_add(1));
            let at = builder.next_word()?;
            builder.bits.add(end.saturating_sub(number), at)?;
        }
        pair = pair.with_bit(start_of(*bit), place);
        place = place.saturating_add(1);
        if place == 64 {
            builder.words.push(pair)?;
            pair = ZEROS;
            place = 0;
        }
    }
    if place > 0 {
        builder.words.push(pair)?;
    }
    Ok(())
}

/// The frame of a function.
fn frame_of(builder: &mut Builder, function: &FlatFunction) -> Result<Frame, Memory> {
    let mut layout = Layout::new(builder.alloc);
    let result = builder.own(function.result)?;
    layout.add(result.width, result.at)?;
    let mut left = function.frame.saturating_sub(function.result);
    let mut inputs = Vec::new(builder.alloc);
    for width in function.inputs.as_slice() {
        let input = builder.own(*width)?;
        layout.add(input.width, input.at)?;
        left = left.saturating_sub(*width);
        inputs.push(input)?;
    }
    let rest = builder.own(left)?;
    if left > 0 {
        layout.add(rest.width, rest.at)?;
    }
    Ok(Frame {
        layout,
        result,
        inputs,
        rest,
    })
}

/// The code of the functions. The places at which they begin are told.
fn lay_functions(builder: &mut Builder, functions: &[FlatFunction]) -> Result<Vec<u32>, Memory> {
    for function in functions {
        let frame = frame_of(builder, function)?;
        builder.frames.push(frame)?;
    }
    let mut starts = Vec::new(builder.alloc);
    for (number, function) in functions.iter().enumerate() {
        builder.function = Some(number);
        builder.fresh_room()?;
        starts.push(builder.next_instr()?)?;
        if let Some(frame) = builder.frames.get(number) {
            let result = frame.result;
            let rest = frame.rest;
            builder.emit(Instr::Forget(result))?;
            if rest.width > 0 {
                builder.emit(Instr::Forget(rest))?;
            }
        }
        builder.statements(function.body.as_slice())?;
        builder.emit(Instr::End)?;
    }
    builder.function = None;
    builder.fresh_room()?;
    Ok(starts)
}

/// Who waits for what.
#[derive(Drop)]
struct Wires {
    any: Vec<Entry>,
    rising: Vec<Entry>,
    falling: Vec<Entry>,
    drivers: Vec<Entry>,
}

/// Adds an entry for each word of a field.
fn add_entries(to: &mut Vec<Entry>, field: Field, of: u32) -> Result<(), Memory> {
    for word in 0..span_of(field) {
        to.push(Entry {
            word: field.at.saturating_add(word),
            watch: Watch {
                mask: mask_in(field, word),
                of,
            },
        })?;
    }
    Ok(())
}

impl Wires {
    fn new(alloc: Global) -> Wires {
        Wires {
            any: Vec::new(alloc),
            rising: Vec::new(alloc),
            falling: Vec::new(alloc),
            drivers: Vec::new(alloc),
        }
    }

    fn network(&self, alloc: Global, words: u32) -> Result<Network, Memory> {
        Ok(Network {
            any: Watches::of(alloc, words, self.any.as_slice())?,
            rising: Watches::of(alloc, words, self.rising.as_slice())?,
            falling: Watches::of(alloc, words, self.falling.as_slice())?,
            drivers: Watches::of(alloc, words, self.drivers.as_slice())?,
        })
    }

    /// An item waits for an event. One with an edge looks at the first bit.
    fn event(&mut self, field: Field, edge: VEdge, item: u32) -> Result<(), Memory> {
        let first = Field {
            at: field.at,
            shift: field.shift,
            width: 1,
        };
        match edge {
            VEdge::Any => add_entries(&mut self.any, field, item),
            VEdge::Rising => add_entries(&mut self.rising, first, item),
            VEdge::Falling => add_entries(&mut self.falling, first, item),
        }
    }

    /// A driver of bits of the design lies in words in the same way.
    fn driver(&mut self, field: Field, driver: Field) -> Result<(), Memory> {
        for word in 0..span_of(field) {
            self.drivers.push(Entry {
                word: field.at.saturating_add(word),
                watch: Watch {
                    mask: mask_in(field, word),
                    of: driver.at.saturating_add(word),
                },
            })?;
        }
        Ok(())
    }
}

/// For each bit whether several assignments drive it.
fn shared_bits(alloc: Global, flat: &Flat) -> Result<Vec<bool>, Memory> {
    let mut driven = vec![in alloc; false; flat.bits.len()]?;
    let mut shared = vec![in alloc; false; flat.bits.len()]?;
    for item in flat.items.as_slice() {
        if let FlatItem::Assign { target, .. } = item {
            for bit in target.first..target.first.saturating_add(target.width) {
                if let Some(known) = driven.get_mut(bit as usize) {
                    if *known && let Some(place) = shared.get_mut(bit as usize) {
                        *place = true;
                    }
                    *known = true;
                }
            }
        }
    }
    Ok(shared)
}

/// The code of the items. The places at which they begin are told.
fn lay_items(builder: &mut Builder, wires: &mut Wires, flat: &Flat) -> Result<Vec<u32>, Memory> {
    let shared = shared_bits(builder.alloc, flat)?;
    let mut starts = Vec::new(builder.alloc);
    for (number, item) in flat.items.as_slice().iter().enumerate() {
        let number = u32::try_from(number).map_err(|_| Memory)?;
        starts.push(builder.next_instr()?)?;
        match item {
            FlatItem::Assign {
                target,
                value,
                at: _,
            } => lay_assign(builder, wires, &shared, number, *target, value)?,
            FlatItem::Always {
                events,
                body,
                at: _,
            } => {
                for event in events.as_slice() {
                    let field = builder.field(event.of);
                    wires.event(field, event.edge, number)?;
                }
                builder.statements(body.as_slice())?;
            }
        }
        builder.emit(Instr::End)?;
    }
    Ok(starts)
}

/// Whether one of the bits has several drivers.
fn is_shared(shared: &[bool], target: Place) -> bool {
    let end = target.first.saturating_add(target.width);
    match shared.get(target.first as usize..end as usize) {
        Some(bits) => bits.contains(&true),
        None => false,
    }
}

/// The code of a continuous assignment. Where no other one drives its bits, its driver is the bits themselves.
fn lay_assign(
    builder: &mut Builder,
    wires: &mut Wires,
    shared: &[bool],
    item: u32,
    target: Place,
    value: &FExpr,
) -> Result<(), Memory> {
    builder.reads.clear();
    let from = builder.value(value)?.at;
    let field = builder.field(target);
    if is_shared(shared, target) {
        let driver = builder.own_field(field.shift, field.width)?;
        builder.forget(driver);
        wires.driver(field, driver)?;
        builder.emit(Instr::Put {
            from,
            to: driver,
            how: How::Quiet,
        })?;
        builder.emit(Instr::Resolve(field))?;
    } else {
        builder.emit(Instr::Put {
            from,
            to: field,
            how: How::Now,
        })?;
    }
    builder.clear_room();
    for read in &builder.reads {
        add_entries(&mut wires.any, *read, item)?;
    }
    Ok(())
}
