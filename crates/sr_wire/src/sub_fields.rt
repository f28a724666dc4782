//! Fields that sub-TLVs say: what one more sub-TLV adds, and how the fields are written.

ghost use Rattle.std.specs.Prelude.{◌≡◌, ◌↔◌, ◌+◌, ◌*◌, ◌≤◌, ◌^◌, ◌++◌, length, All, IfSome, IsTrue, OnErr, OnOk};
ghost use Rattle.sr_wire.specs.Octets.{Continues};
ghost use Rattle.std.specs.List.{flat_map};
ghost use Rattle.sr_wire.specs.Fields.{sub_text, text_if_some};
ghost use Rattle.sr_wire.specs.Sub.{AddsAll, AddsFirst};

use crate::registry::{FRAME, LONGEST_VALUE};
use crate::sub_kind::SubKind;
use sr_seq::Few;
use std::alloc::{AllocError, Global};

/// Keeps what a sub-TLV says, if it is of the kind, says something, and nothing was said before.
pub fn add_first<X: Drop, K: SubKind<X>>(
    alloc: Global,
    field: &mut Option<X>,
    kind: u8,
    value: &[u8],
) -> Result<(), AllocError>
    ensures { OnOk result
        (AddsFirst K.sub.kind K.sub.means
        (record { kind = kind; value = value.now }) field.old field.new) }
{
    if kind == K::kind() && field.is_none() {
        *field = K::read(alloc, value)?;
    }
    Ok(())
}

/// Appends what a sub-TLV says, if it is of the kind and says something.
pub fn add_all<X: Drop, K: SubKind<X>>(
    alloc: Global,
    field: &mut Few<X>,
    kind: u8,
    value: &[u8],
) -> Result<(), AllocError>
    ensures { OnOk result
        (AddsAll K.sub.kind K.sub.means
        (record { kind = kind; value = value.now }) field.old field.new) }
{
    if kind == K::kind() {
        if let Some(x) = K::read(alloc, value)? {
            field.push(x)?;
        }
    }
    Ok(())
}

/// How many octets the sub-TLV of the field has, or 0 where the field holds nothing.
pub fn first_length<X, K: SubKind<X>>(field: &Option<X>) -> u128
    requires { K.most ≤ 2 ^ 68 }
    ensures is { result ≡ length (text_if_some (sub_text K.sub) field.now) }
    ensures small { result ≤ 2 + K.most }
{
    match field {
        Some(x) => FRAME + K::length(x),
        None => 0,
    }
}

/// How many octets the sub-TLVs of the values have.
pub fn all_length<X, K: SubKind<X>>(field: &[X]) -> u128
    requires { K.most ≤ LONGEST_VALUE }
    ensures is { result ≡ length (flat_map (sub_text K.sub) field.now) }
    ensures small { result ≤ 257 * length field.now }
{
    let mut octets = 0;
    for x in field {
        octets += FRAME + K::length(x);
    }
    octets
}

/// Appends the sub-TLV of the field, where it holds a value; an error leaves the octets as they were.
pub fn write_first<X, K: SubKind<X>>(field: &Option<X>, out: &mut Vec<u8>) -> Result<(), AllocError>
    requires fits { IfSome field.now K.sub.fits }
    requires short { length (text_if_some (sub_text K.sub) field.now) ≤ LONGEST_VALUE }
    ensures ok { OnOk result
        (out.new.items ≡ out.old.items ++ text_if_some (sub_text K.sub) field.now) }
    ensures err { OnErr result (out.new.items ≡ out.old.items) }
{
    match field {
        Some(x) => K::write(x, out),
        None => Ok(()),
    }
}

/// Appends the sub-TLVs of the values. After an error what was there still stands, and other octets may follow it.
pub fn write_all_subs<X, K: SubKind<X>>(field: &[X], out: &mut Vec<u8>) -> Result<(), AllocError>
    requires most { K.most ≤ LONGEST_VALUE }
    requires fit { All K.sub.fits field.now }
    ensures ok { OnOk result
        (out.new.items ≡ out.old.items ++ flat_map (sub_text K.sub) field.now) }
    ensures err { OnErr result (Continues out.old.items out.new.items) }
{
    for x in field {
        // Its clause says that the value is short enough to be written.
        let _octets = K::length(x);
        K::write(x, out)?;
    }
    Ok(())
}

/// Whether the field has a spelling, as it has where it holds nothing.
pub fn first_fits<X, K: SubKind<X>>(field: &Option<X>) -> bool
    ensures { IsTrue result ↔ IfSome field.now K.sub.fits }
{
    match field {
        Some(x) => K::fits(x),
        None => true,
    }
}

/// Whether each value has a spelling.
pub fn all_fit<X, K: SubKind<X>>(field: &[X]) -> bool
    ensures { IsTrue result ↔ All K.sub.fits field.now }
{
    for x in field {
        if !K::fits(x) {
            return false;
        }
    }
    true
}

/// The numbers of the field fit their octets, where it holds a value.
pub fn first_widths<X, K: SubKind<X>>(field: &Option<X>)
    ensures { IfSome field.now K.sub.widths }
{
    match field {
        Some(x) => K::widths(x),
        None => {}
    }
}

/// The numbers of each value fit their octets.
pub fn all_widths<X, K: SubKind<X>>(field: &[X])
    ensures { All K.sub.widths field.now }
{
    for x in field {
        K::widths(x);
    }
}
