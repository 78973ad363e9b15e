//! The codec, which gives a value its bits.

ghost use Rattle.std.specs.Prelude.{◌≡◌, ◌<◌, ◌≤◌, ◌^◌, ◌++◌, IfOk, OnOk, OnErr};
ghost use Rattle.vv_types.specs.Codec.{bits_of, codec_of, scalar_codec, width_of};
ghost use Rattle.vv_types.specs.Prefix.{Extends};
ghost use Rattle.vv_types.specs.Subtype.{HasElements};

use crate::base::{BaseType, Subtype};
use crate::digits::{enum_width, int_width, push_digits};
use crate::value::Value;
use sqlite_items::Boxed;
use std::alloc::Global;
use vv_base::fault::Memory;
use vv_bits::S9;

/// How the values of a subtype are written in bits.
#[derive(Drop)]
pub enum Codec {
    /// One bit for a value of `std_ulogic`.
    Std,
    /// One bit for a boolean.
    Bool,
    /// The fewest bits that hold the numbers from `low` to `high`.
    Int { low: i32, high: i32 },
    /// The fewest bits that hold the position of each of `count` literals.
    Enum { count: u32 },
    /// The bits of `n` elements, the leftmost first.
    Of { n: u32, elem: Boxed<Codec> },
}

impl Codec {
    /// The codec of a subtype. Each array of the subtype has an element, and an object of it has at most 65,536 bits.
    pub fn of(alloc: Global, s: &Subtype) -> Result<Codec, Memory>
        requires elements { HasElements s.now }
        requires bits { width_of (codec_of s.now) ≤ 65536 }
        ensures { IfOk result (λ codec. codec ≡ codec_of s.now) }
    {
        match s {
            Subtype::Scalar {
                base,
                left,
                right,
                down,
                count,
            } => {
                let (low, high) = if *down {
                    (*right, *left)
                } else {
                    (*left, *right)
                };
                Ok(Codec::scalar(*base, low, high, *count))
            }
            Subtype::Array {
                base: _,
                bounds,
                elem,
            } => {
                let codec = Codec::of(alloc, elem.get())?;
                Ok(Codec::Of {
                    n: bounds.index_count(),
                    elem: Boxed::new(alloc, codec)?,
                })
            }
        }
    }

    /// The codec of the scalars of a base type from `low` to `high`. No scalar has an array type.
    fn scalar(base: BaseType, low: i32, high: i32, count: u32) -> Codec
        ensures { result ≡ scalar_codec base low high count }
    {
        match base {
            BaseType::Logic | BaseType::Array(_) => Codec::Std,
            BaseType::Bool => Codec::Bool,
            BaseType::Int => Codec::Int { low, high },
            BaseType::Enum(_) => Codec::Enum { count },
        }
    }

    /// How many bits each value of the codec has.
    pub fn width(&self) -> u32
        requires { width_of self.now < 2 ^ 32 }
        ensures { result ≡ width_of self.now }
    {
        match self {
            Codec::Std | Codec::Bool => 1,
            Codec::Int { low, high } => int_width(*low, *high),
            Codec::Enum { count } => enum_width(*count),
            Codec::Of { n, elem } => { if *n == 0 { 0 } else { *n * elem.get().width() } }
        }
    }

    /// Appends the bits of a value, leftmost first. A part of the value that is not of the codec's kind has no bits. Where there is no
    /// memory nothing is appended.
    pub fn bits(&self, v: &Value, into: &mut Vec<S9>) -> Result<(), Memory>
        ensures ok { OnOk result (into.new.items ≡ into.old.items ++ bits_of self.now v.now) }
        ensures err { OnErr result (into.new.items ≡ into.old.items) }
    {
        let len = into.len();
        let done = self.append_bits(v, into);
        if done.is_err() {
            into.truncate(len);
        }
        done
    }

    /// As `bits`, but where there is no memory some bits may have been appended.
    fn append_bits(&self, v: &Value, into: &mut Vec<S9>) -> Result<(), Memory>
        ensures ok { OnOk result (into.new.items ≡ into.old.items ++ bits_of self.now v.now) }
        ensures err { OnErr result (Extends into.old.items into.new.items) }
    {
        match (self, v) {
            (Codec::Std, Value::Logic(x)) => into.push(*x)?,
            (Codec::Bool, Value::Bool(x)) => into.push(if *x { S9::One } else { S9::Zero })?,
            (Codec::Int { low, high }, Value::Int(x)) => {
                push_digits(int_width(*low, *high), x.cast_unsigned(), into)?
            }
            (Codec::Enum { count }, Value::Enum(position)) => {
                push_digits(enum_width(*count), *position, into)?
            }
            (Codec::Of { n: _, elem }, Value::Array(xs)) => {
                for x in xs.as_slice() {
                    elem.get().append_bits(x, into)?;
                }
            }
            _ => {}
        }
        Ok(())
    }
}
