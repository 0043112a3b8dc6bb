//! Parses attribute lists (section 4.2), and finds the first fault of a text that is none.
ghost use Rattle.std.specs.Prelude.{◌≡◌, ◌≢◌, ◌++◌, ◌∷◌, ℕ, List, [], false, IfOk, IfErr, IfSome, IsOk, IsErrOf, Ok, Err, None, Some, MatchOption, if◌then◌else◌, bytes_eq, take};
ghost use Rattle.std.specs.List.{list_any, after_first};
ghost use Rattle.ll_attr.specs.Attributes.{attributes_in, attribute_in, parts_outside, spelling, value_in, is_equals};
ghost use Rattle.ll_attr.specs.Reading.{fault_of, fault_of_value, is_named, names_of_parts, texts};
ghost use Rattle.ll_attr.specs.Reading as reading;
ghost use Rattle.ll_attr.specs.declared.attributes.Attribute.{Attribute};

use crate::attribute_text::{
    first_part, name_and_value, name_of, quoted_text, value_of, value_text,
};
use crate::attributes::{AttrFault, AttrList, AttrValue, Attribute};
use crate::text::Text;
use indexmap::IndexSet;
use std::alloc::{AllocError, Global};

#[tactic(auto, using(crate::proofs::Spelled::written_again, crate::proofs::Spelled::read_again))]
impl AttrList {
    /// Parses `text` as an attribute list, `NAME=VALUE,NAME="VALUE"` (section 4.2), or returns its first fault from the
    /// left. `Memory` comes after all other faults.
    pub fn parse(alloc: Global, text: &str) -> Result<AttrList, AttrFault>
        ensures value { IfOk result (λ list. attributes_in text.now ≡ Ok list) }
        ensures refused { IfErr result (λ fault. fault ≢ AttrFault.Memory → attributes_in text.now ≡ Err fault) }
        ensures memory { IsErrOf result AttrFault.Memory → IsOk (attributes_in text.now) }
        ensures written_again { IfOk result (λ list. spelling list ≡ text.now) }
    {
        if let Some(fault) = AttrList::first_fault(alloc, text) {
            return Err(fault);
        }
        match read(alloc, text) {
            Ok(attributes) => Ok(AttrList::of(attributes)),
            Err(AllocError) => Err(AttrFault::Memory),
        }
    }

    /// Returns the first fault of `text` from the left, or `None` if it spells an attribute list (section 4.2). Names
    /// are compared by a set; if memory runs out, they are compared in pairs, with the same result.
    pub fn first_fault(alloc: Global, text: &str) -> Option<AttrFault>
        ensures fault { MatchOption result (IsOk (attributes_in text.now)) (λ fault. attributes_in text.now ≡ Err fault) }
        ensures not_memory { IfSome result (λ fault. fault ≢ AttrFault.Memory) }
    {
        match fault_by_set(alloc, text) {
            Ok(fault) => fault,
            Err(AllocError) => fault_in_pairs(text),
        }
    }
}

/// Returns the attributes of `text`, which spells an attribute list.
fn read(alloc: Global, text: &str) -> Result<Vec<Attribute>, AllocError>
    requires { IsOk (attributes_in text.now) }
    ensures { IfOk result (λ attributes. attributes_in text.now ≡ Ok attributes.items) }
{
    let mut attributes = Vec::new(alloc);
    let mut rest = text;
    loop {
        let (part, after) = first_part(rest);
        attributes.push(attribute_of(alloc, part)?)?;
        match after {
            Some(after) => rest = after,
            None => return Ok(attributes),
        }
    }
}

/// Returns the attribute that `part` spells, if it spells one.
fn attribute_of(alloc: Global, part: &str) -> Result<Attribute, AllocError>
    ensures { IfOk result (λ a. (names : List (List ℕ)) (b : Attribute) → attribute_in names part.now ≡ Ok b → a ≡ b) }
{
    let name = Text::from_str(alloc, name_of(part))?;
    let value = value_of(part);
    let value = match quoted_text(value) {
        Some(inner) => AttrValue::Quoted(Text::from_str(alloc, inner)?),
        None => AttrValue::Bare(Text::from_str(alloc, value)?),
    };
    Ok(Attribute { name, value })
}

/// Returns the first fault of `text`; keeps its names in a set.
fn fault_by_set(alloc: Global, text: &str) -> Result<Option<AttrFault>, AllocError>
    ensures fault { IfOk result (λ r. MatchOption r (IsOk (attributes_in text.now)) (λ fault. attributes_in text.now ≡ Err fault)) }
    ensures not_memory { IfOk result (λ r. IfSome r (λ fault. fault ≢ AttrFault.Memory)) }
{
    let mut names = IndexSet::new(alloc);
    let mut rest = text;
    loop {
        let (part, after) = first_part(rest);
        if let Some(fault) = new_part_fault(&mut names, part)? {
            return Ok(Some(fault));
        }
        match after {
            Some(after) => rest = after,
            None => return Ok(None),
        }
    }
}

/// Returns the fault of `part` after parts whose names are in `names`; if it has none, adds its name to them.
fn new_part_fault<'a>(
    names: &mut IndexSet<&'a str>,
    part: &'a str,
) -> Result<Option<AttrFault>, AllocError>
    ensures fault { IfOk result (λ r. r ≡ fault_of (texts names.old.keys) part.now) }
    ensures put { IfOk result (λ r. r ≡ None → texts names.new.keys ≡ texts names.old.keys ++ reading.name_of part.now ∷ []) }
{
    if let Some(fault) = name_fault(part) {
        return Ok(Some(fault));
    }
    if !names.insert(name_of(part))? {
        return Ok(Some(AttrFault::Twice));
    }
    Ok(value_fault(part))
}

/// Returns the first fault of `text`; looks for each name in the text again, which takes no memory.
fn fault_in_pairs(text: &str) -> Option<AttrFault>
    ensures fault { MatchOption result (IsOk (attributes_in text.now)) (λ fault. attributes_in text.now ≡ Err fault) }
    ensures not_memory { IfSome result (λ fault. fault ≢ AttrFault.Memory) }
{
    let mut count: usize = 0;
    let mut rest = text;
    loop {
        let (part, after) = first_part(rest);
        if let Some(fault) = part_fault(text, count, part) {
            return Some(fault);
        }
        match after {
            Some(after) => rest = after,
            None => return None,
        }
        count += 1;
    }
}

/// Returns `BadName` if `part` has no name.
fn name_fault(part: &str) -> Option<AttrFault>
    ensures { result ≡ (if is_named part.now then None else Some AttrFault.BadName) }
{
    match name_and_value(part) {
        Some(_) => None,
        None => Some(AttrFault::BadName),
    }
}

/// Returns `BadValue` if what follows the first equals sign of `part` is no value.
fn value_fault(part: &str) -> Option<AttrFault>
    ensures { result ≡ fault_of_value (value_in (after_first is_equals part.now)) }
{
    match value_text(value_of(part)) {
        Some(_) => None,
        None => Some(AttrFault::BadValue),
    }
}

/// Returns the first fault of `part` after the first `count` parts of `text`.
fn part_fault(text: &str, count: usize, part: &str) -> Option<AttrFault>
    ensures { result ≡ fault_of (names_of_parts [] (take count (parts_outside false text.now))) part.now }
{
    let Some((name, value)) = name_and_value(part) else {
        return Some(AttrFault::BadName);
    };
    if stands_before(text, count, name) {
        return Some(AttrFault::Twice);
    }
    match value_text(value) {
        Some(_) => None,
        None => Some(AttrFault::BadValue),
    }
}

/// Returns whether one of the first `count` parts of `text` has the name `name`.
fn stands_before(text: &str, count: usize, name: &str) -> bool
    ensures { result ≡ list_any (λ part. bytes_eq name.now (reading.name_of part)) (take count (parts_outside false text.now)) }
{
    let mut left = count;
    let mut rest = text;
    while 0 < left {
        let (part, after) = first_part(rest);
        if name == name_of(part) {
            return true;
        }
        let Some(after) = after else {
            return false;
        };
        rest = after;
        left -= 1;
    }
    false
}
