//! Attribute lists (section 4.2): their attributes and faults, how they are compared, searched, written and copied.
ghost use Rattle.std.specs.Prelude.{◌≡◌, ◌≢◌, ◌++◌, ◌∷◌, [], IfOk, MatchOption, Ok, None, Some, string_bytes};
ghost use Rattle.std.proofs.Common.{rules};
ghost use Rattle.std.specs.Bool.{Decides};
ghost use Rattle.std.specs.Cmp.Rules.{comparing};
ghost use Rattle.ll_attr.specs.Attributes.{attributes_in, attribute_spelling, spelling, value_named};

use crate::text::Text;
use std::alloc::AllocError;
use std::marker::Model;

/// The value of an attribute (section 4.2).
#[derive(Drop)]
pub enum AttrValue {
    /// The text between quotation marks, without a quotation mark, CR or LF (quoted-string).
    Quoted(Text),
    /// One or more characters other than a quotation mark, a comma, a space, a tab, CR or LF.
    Bare(Text),
}

/// A name and its value.
#[derive(Drop)]
pub struct Attribute {
    /// One or more characters A-Z, 0-9 and `-`, compared byte by byte.
    pub name: Text,
    /// The value after the equals sign.
    pub value: AttrValue,
}

impl PartialEq for AttrValue {
    ghost use Rattle.ll_attr.specs.Same.{same_value};

    ghost eq = { same_value };

    ghost laws = { Prim.search (comparing, rules) };

    fn eq(&self, other: &AttrValue) -> bool {
        match (self, other) {
            (AttrValue::Quoted(text), AttrValue::Quoted(same)) => text == same,
            (AttrValue::Bare(text), AttrValue::Bare(same)) => text == same,
            _ => false,
        }
    }
}

impl PartialEq for Attribute {
    ghost use Rattle.ll_attr.specs.Same.{same_attribute};

    ghost eq = { same_attribute };

    ghost laws = { Prim.search (comparing, rules) };

    fn eq(&self, other: &Attribute) -> bool {
        self.name == other.name && self.value == other.value
    }
}

/// The first fault, from the left, of a text that is no attribute list. Within a pair, its name comes first, then that it
/// is given twice, then its value; `Memory` comes after all of them.
#[derive(Clone, Copy, Debug)]
pub enum AttrFault {
    /// A name is empty, has a character outside A-Z, 0-9 and `-`, or has no equals sign after it.
    BadName,
    /// A value is neither a quoted string nor bare.
    BadValue,
    /// A name is given twice.
    Twice,
    /// Out of memory.
    Memory,
}

impl From<AllocError> for AttrFault {
    ghost use Rattle.ll_attr.specs.declared.attributes.AttrFault.TheVariants.{Memory};

    ghost from_gives = { λ error fault. fault ≡ Memory };

    fn from(_error: AllocError) -> AttrFault {
        AttrFault::Memory
    }
}

/// An attribute list: names with their values, in the order in which they were written, no name twice (section 4.2). The
/// list without attributes is a value too, though no text spells it.
pub struct AttrList {
    attributes: Vec<Attribute>,
}

impl Drop for AttrList {
    fn drop(self) {
        let AttrList {
            attributes: _attributes,
        } = self;
    }
}

impl Model for AttrList {
    ghost use Rattle.std.specs.Prelude.{◌≡◌, ◌≢◌, List, [], Ok};
    ghost use Rattle.ll_attr.specs.Attributes.{attributes_in, spelling};
    ghost use Rattle.ll_attr.specs.declared.attributes.Attribute.{Attribute};

    ghost Value = { List Attribute };

    ghost view = { λ list. list.attributes.items };

    ghost invariant = { λ list. list.attributes.items ≢ [] → attributes_in (spelling list.attributes.items) ≡ Ok list.attributes.items };
}

impl PartialEq for AttrList {
    ghost use Rattle.ll_attr.specs.Same.{same_attributes};
    ghost use Rattle.std.specs.Cmp.Lexicographic.{lists_per};

    ghost eq = { same_attributes };

    ghost laws = { lists_per (Prim.search (comparing, rules)) };

    /// Returns whether both lists have the same attributes in the same order, byte by byte.
    #[tactic(auto, using(crate::proofs::SameLemmas::list_decided))]
    fn eq(&self, other: &AttrList) -> bool
        ensures value { result ≡ same_attributes self.now other.now }
        ensures equal { Decides result (self.now ≡ other.now) }
    {
        self.attributes() == other.attributes()
    }
}

impl AttrList {
    /// Makes a list of `attributes`, which must be what their spelling is read as.
    pub(crate) fn of(attributes: Vec<Attribute>) -> AttrList
        requires { attributes_in (spelling attributes.items) ≡ Ok attributes.items }
        ensures { result ≡ attributes.items }
    {
        AttrList { attributes }
    }

    /// Returns the attributes, in the order in which they were written.
    pub fn attributes(&self) -> &[Attribute]
        ensures { result.now ≡ self.now }
    {
        self.attributes.as_slice()
    }

    /// Returns the first attribute and the list of the others, or `None` if the list is empty.
    pub fn split_first(self) -> Option<(Attribute, AttrList)>
        ensures { MatchOption result (self ≡ []) (λ s. self ≡ s.0 ∷ s.1) }
    {
        let AttrList { mut attributes } = self;
        if attributes.is_empty() {
            return None;
        }
        let first = attributes.remove(0);
        Some((first, AttrList { attributes }))
    }

    /// Returns the value of the attribute named `name`, if the list has one. Names are compared byte by byte.
    pub fn get(&self, name: &str) -> Option<&AttrValue>
        ensures { MatchOption result (value_named name.now self.now ≡ None) (λ value. value_named name.now self.now ≡ Some value.now) }
    {
        for attribute in &self.attributes {
            if attribute.name.as_str() == name {
                return Some(&attribute.value);
            }
        }
        None
    }

    /// Writes the list as a text, which `parse` reads as this list again, unless it is empty.
    pub fn write(&self) -> Result<Text, AllocError>
        ensures value { IfOk result (λ text. text ≡ spelling self.now) }
        ensures read_again { IfOk result (λ text. self.now ≢ [] → attributes_in text ≡ Ok self.now) }
    {
        let mut text = String::new(*self.attributes.allocator());
        let mut separator = "";
        for attribute in &self.attributes {
            text.push_str(separator)?;
            attribute.append_to(&mut text)?;
            separator = ",";
        }
        Ok(Text::from_string(text))
    }

    /// Returns a deep copy of the list.
    pub fn copy(&self) -> Result<AttrList, AllocError>
        ensures { IfOk result (λ list. list ≡ self.now) }
    {
        let alloc = *self.attributes.allocator();
        let mut attributes = Vec::with_capacity(alloc, self.attributes.len())?;
        for attribute in &self.attributes {
            attributes.push(attribute.copy()?)?;
        }
        Ok(AttrList { attributes })
    }
}

impl Attribute {
    /// Appends the name, an equals sign and the value.
    fn append_to(&self, text: &mut String) -> Result<(), AllocError>
        ensures { IfOk result (λ u. string_bytes text.new ≡ string_bytes text.old ++ attribute_spelling self.now) }
    {
        text.push_str(self.name.as_str())?;
        text.push('=')?;
        match &self.value {
            AttrValue::Quoted(value) => {
                text.push('"')?;
                text.push_str(value.as_str())?;
                text.push('"')
            }
            AttrValue::Bare(value) => text.push_str(value.as_str()),
        }
    }

    /// Returns a deep copy of the attribute.
    fn copy(&self) -> Result<Attribute, AllocError>
        ensures { IfOk result (λ a. a ≡ self.now) }
    {
        Ok(Attribute {
            name: self.name.copy()?,
            value: match &self.value {
                AttrValue::Quoted(value) => AttrValue::Quoted(value.copy()?),
                AttrValue::Bare(value) => AttrValue::Bare(value.copy()?),
            },
        })
    }
}
