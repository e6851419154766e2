//! Values that are lent by a column or a list, and what is done with them.
ghost use Rattle.std.specs.Prelude.{◌≡◌, ◌<◌, ◌^◌, Ok, fold};
ghost use Rattle.px_value.specs.Answer.{AnswersBy, Answers};
ghost use Rattle.px_value.specs.Datum.{slots};
ghost use Rattle.px_value.specs.Equality.{datum_eq, slots_eq, slot_eq};
ghost use Rattle.px_value.specs.Hashing.{datum_hash, slots_hash, slot_hash};
ghost use Rattle.px_value.specs.Kind.{fits, all_fit, slot_fits, is_signed, is_unsigned};
ghost use Rattle.px_value.specs.KindView.{kind_of};
ghost use Rattle.px_value.specs.LentView.{datum_of_ref, slot_of_ref};
ghost use Rattle.px_value.specs.View.{datum_of, slot_of, slots_of};

use crate::data_type::DataType;
use crate::error::Px;
use crate::name::{ByteString, Name};
use crate::value::{Value, Values};
use std::alloc::Global;
use std::hash::{Hash, Hasher};

/// A value, lent.
#[derive(Clone, Copy)]
pub enum ValueRef<'a> {
    /// A truth.
    Boolean(bool),
    /// An integer of any integer type.
    Int(i128),
    /// A text.
    Text(&'a str),
    /// A list of bytes.
    Bytes(&'a [u8]),
    /// A list of values, each of which may be missing.
    List(&'a Values),
}

impl Value {
    /// The value, lent.
    pub fn lend(&self) -> ValueRef<'_>
        ensures { datum_of_ref result ≡ datum_of self.now }
    {
        match self {
            Value::Boolean(b) => ValueRef::Boolean(*b),
            Value::Int(z) => ValueRef::Int(*z),
            Value::Text(s) => ValueRef::Text(s.as_str()),
            Value::Bytes(s) => ValueRef::Bytes(s.as_slice()),
            Value::List(all) => ValueRef::List(all),
        }
    }

    /// Whether the value fits the type: it is of that kind and, for integers, in the type's range.
    pub fn fits(&self, dtype: &DataType) -> bool
        ensures { result ≡ fits (kind_of dtype.now) (datum_of self.now) }
    {
        value_fits(dtype, self.lend())
    }
}

/// What a place holds, lent.
pub fn lend(slot: &Option<Value>) -> Option<ValueRef<'_>>
    ensures { slot_of_ref result ≡ slot_of slot.now }
{
    match slot {
        None => None,
        Some(value) => Some(value.lend()),
    }
}

impl Values {
    /// Equal values, which own their content.
    pub fn try_clone(&self, alloc: Global) -> Px<Values>
        ensures { Answers result (Ok self.now) }
    {
        copy_values(alloc, self)
    }
}

impl ValueRef<'_> {
    /// An equal value, which owns its content.
    pub fn to_value(&self, alloc: Global) -> Px<Value>
        ensures { AnswersBy datum_of result (Ok (datum_of_ref self.now)) }
    {
        copy_value(alloc, *self)
    }
}

#[cycle(copy)]
fn copy_value(alloc: Global, value: ValueRef<'_>) -> Px<Value>
    ensures { AnswersBy datum_of result (Ok (datum_of_ref value.entry)) }
{
    match value {
        ValueRef::Boolean(b) => Ok(Value::Boolean(b)),
        ValueRef::Int(z) => Ok(Value::Int(z)),
        ValueRef::Text(s) => Ok(Value::Text(Name::new(alloc, s)?)),
        ValueRef::Bytes(s) => Ok(Value::Bytes(ByteString::from_slice(alloc, s)?)),
        ValueRef::List(all) => Ok(Value::List(copy_values(alloc, all)?)),
    }
}

#[cycle(copy)]
fn copy_values(alloc: Global, values: &Values) -> Px<Values>
    ensures { Answers result (Ok values.now) }
{
    let mut items = Vec::with_capacity(alloc, values.items.len())?;
    let mut i = 0;
    while i < values.items.len() {
        items.push(copy_slot(alloc, lend(&values.items[i]))?)?;
        i += 1;
    }
    Ok(Values { items })
}

/// An equal place, which owns its content.
#[cycle(copy)]
pub fn copy_slot(alloc: Global, slot: Option<ValueRef<'_>>) -> Px<Option<Value>>
    ensures { AnswersBy slot_of result (Ok (slot_of_ref slot.entry)) }
{
    match slot {
        None => Ok(None),
        Some(value) => Ok(Some(copy_value(alloc, value)?)),
    }
}

/// Equal places, which own their content.
pub fn copy_slots(alloc: Global, rows: &[Option<Value>]) -> Px<Vec<Option<Value>>>
    ensures { AnswersBy (λ v. slots_of v.items) result (Ok (slots_of rows.now)) }
{
    let mut copies = Vec::with_capacity(alloc, rows.len())?;
    for row in rows {
        copies.push(copy_slot(alloc, lend(row))?)?;
    }
    Ok(copies)
}

/// Whether a value fits a type.
#[cycle(fits)]
#[inline(always)]
fn value_fits(kind: &DataType, value: ValueRef<'_>) -> bool
    ensures { result ≡ fits (kind_of kind.now) (datum_of_ref value.entry) }
{
    match (kind, value) {
        (DataType::Boolean, ValueRef::Boolean(_)) => true,
        (DataType::Int8, ValueRef::Int(z)) => is_signed(z, 1 << 7),
        (DataType::Int16, ValueRef::Int(z)) => is_signed(z, 1 << 15),
        (DataType::Int32, ValueRef::Int(z)) => is_signed(z, 1 << 31),
        (DataType::Int64, ValueRef::Int(z)) => is_signed(z, 1 << 63),
        (DataType::UInt8, ValueRef::Int(z)) => is_unsigned(z, 1 << 8),
        (DataType::UInt16, ValueRef::Int(z)) => is_unsigned(z, 1 << 16),
        (DataType::UInt32, ValueRef::Int(z)) => is_unsigned(z, 1 << 32),
        (DataType::UInt64, ValueRef::Int(z)) => is_unsigned(z, 1 << 64),
        (DataType::String, ValueRef::Text(_)) => true,
        (DataType::Binary, ValueRef::Bytes(_)) => true,
        (DataType::List(of), ValueRef::List(all)) => all_fit(of, all),
        _ => false,
    }
}

#[cycle(fits)]
fn all_fit(kind: &DataType, values: &Values) -> bool
    ensures { result ≡ all_fit (kind_of kind.now) (slots values.now) }
{
    let mut i = 0;
    while i < values.items.len() {
        if !slot_fits(kind, lend(&values.items[i])) {
            return false;
        }
        i += 1;
    }
    true
}

/// Whether a place fits a type: a null fits each.
#[cycle(fits)]
#[inline(always)]
pub fn slot_fits(kind: &DataType, slot: Option<ValueRef<'_>>) -> bool
    ensures { result ≡ slot_fits (kind_of kind.now) (slot_of_ref slot.entry) }
{
    match slot {
        None => true,
        Some(value) => value_fits(kind, value),
    }
}

fn is_signed(z: i128, bound: u128) -> bool
    requires { bound < 2 ^ 127 }
    ensures { result ≡ is_signed bound z }
{
    let bound = bound as i128;
    -bound <= z && z < bound
}

fn is_unsigned(z: i128, bound: u128) -> bool
    requires { bound < 2 ^ 127 }
    ensures { result ≡ is_unsigned bound z }
{
    0 <= z && z < bound as i128
}

#[cycle(same)]
fn same_value(a: ValueRef<'_>, b: ValueRef<'_>) -> bool
    ensures { result ≡ datum_eq (datum_of_ref a.entry) (datum_of_ref b.entry) }
{
    match (a, b) {
        (ValueRef::Boolean(x), ValueRef::Boolean(y)) => x == y,
        (ValueRef::Int(x), ValueRef::Int(y)) => x == y,
        (ValueRef::Text(x), ValueRef::Text(y)) => x == y,
        (ValueRef::Bytes(x), ValueRef::Bytes(y)) => x == y,
        (ValueRef::List(x), ValueRef::List(y)) => same_values(x, y),
        _ => false,
    }
}

#[cycle(same)]
fn same_values(a: &Values, b: &Values) -> bool
    ensures { result ≡ slots_eq (slots a.now) (slots b.now) }
{
    if a.items.len() != b.items.len() {
        return false;
    }
    let mut i = 0;
    while i < a.items.len() {
        if !same_slot(lend(&a.items[i]), lend(&b.items[i])) {
            return false;
        }
        i += 1;
    }
    true
}

/// Whether two places hold the same, a null being the same as a null.
#[cycle(same)]
pub fn same_slot(a: Option<ValueRef<'_>>, b: Option<ValueRef<'_>>) -> bool
    ensures { result ≡ slot_eq (slot_of_ref a.entry) (slot_of_ref b.entry) }
{
    match (a, b) {
        (None, None) => true,
        (Some(x), Some(y)) => same_value(x, y),
        _ => false,
    }
}

#[cycle(hash)]
fn hash_value<H: Hasher>(value: ValueRef<'_>, state: &mut H)
    ensures { state.new ≡ fold H.write state.old (datum_hash (datum_of_ref value.entry)) }
{
    match value {
        ValueRef::Boolean(b) => {
            state.write_u8(0);
            b.hash(state);
        }
        ValueRef::Int(z) => {
            state.write_u8(1);
            z.hash(state);
        }
        ValueRef::Text(s) => {
            state.write_u8(2);
            s.hash(state);
        }
        ValueRef::Bytes(s) => {
            state.write_u8(3);
            s.hash(state);
        }
        ValueRef::List(all) => {
            state.write_u8(4);
            hash_values(all, state);
        }
    }
}

#[cycle(hash)]
fn hash_values<H: Hasher>(values: &Values, state: &mut H)
    ensures { state.new ≡ fold H.write state.old (slots_hash (slots values.now)) }
{
    let mut i = 0;
    while i < values.items.len() {
        hash_slot(lend(&values.items[i]), state);
        i += 1;
    }
    state.write_u8(0);
}

/// Feeds what a place holds, with a mark that tells a null from a value.
#[cycle(hash)]
pub fn hash_slot<H: Hasher>(slot: Option<ValueRef<'_>>, state: &mut H)
    ensures { state.new ≡ fold H.write state.old (slot_hash (slot_of_ref slot.entry)) }
{
    match slot {
        None => state.write_u8(1),
        Some(value) => {
            state.write_u8(2);
            hash_value(value, state);
        }
    }
}
