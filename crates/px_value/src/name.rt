//! Texts and strings of bytes, which contracts see as lists of bytes.
ghost use Rattle.std.specs.Prelude.{◌≡◌};
ghost use Rattle.px_value.specs.Answer.{Answers};

use crate::error::Px;
use arrayvec::{ArrayString, ArrayVec};
use std::alloc::Global;
use std::fmt;
use std::hash::{Hash, Hasher};
use std::marker::Model;
use std::rc::{RcSlice, RcStr};

/// A text of up to 16 bytes in place, or a longer one that copies share.
#[derive(Drop)]
enum Text {
    InPlace(ArrayString<16>),
    Shared(RcStr),
}

/// The name of a column, or another text (polars `PlSmallStr`); seen as its UTF-8 bytes. Up to 16 bytes
/// stand in place and take no allocation; copies of a longer text share its bytes.
pub struct Name {
    text: Text,
}

/// One call where a name is let go, so that proofs see no more of what is inside.
impl Drop for Name {
    fn drop(self) {
        let Name { text: _text } = self;
    }
}

impl Model for Name {
    ghost use Rattle.std.specs.Prelude.{List, ℕ, IsUtf8};
    ghost use Rattle.std.specs.Coded.{coded_list, coded_ℕ};

    ghost Value = { List ℕ };

    ghost coded = { coded_list coded_ℕ };

    ghost use Rattle.px_value.specs.Text.{text_bytes};

    ghost view = { λ n. text_bytes n.text };

    ghost invariant = { λ n. IsUtf8 (text_bytes n.text) };
}

impl Name {
    ghost use Rattle.std.specs.Prelude.{Ok};

    /// The text, copied. One of at most 16 bytes takes no allocation.
    pub fn new(alloc: Global, text: &str) -> Px<Name>
        ensures { Answers result (Ok text.now) }
    {
        let text = match ArrayString::from(text) {
            Ok(text) => Text::InPlace(text),
            Err(_) => Text::Shared(RcStr::from_str(alloc, text)?),
        };
        Ok(Name { text })
    }

    /// The text, lent.
    #[inline]
    pub fn as_str(&self) -> &str
        ensures { result.now ≡ self.now }
    {
        match &self.text {
            Text::InPlace(text) => text.as_str(),
            Text::Shared(text) => text.as_str(),
        }
    }

    /// An equal name, which shares a text of more than 16 bytes and takes no allocation.
    pub fn try_clone(&self, _alloc: Global) -> Px<Name>
        ensures { Answers result (Ok self.now) }
    {
        let text = match &self.text {
            Text::InPlace(text) => Text::InPlace(*text),
            Text::Shared(text) => Text::Shared(text.clone()?),
        };
        Ok(Name { text })
    }
}

impl fmt::Debug for Name {
    fn fmt<W: fmt::Write>(&self, f: &mut fmt::Formatter<W>) -> fmt::Result {
        let text = self.as_str();
        write!(f, "{text:?}")
    }
}

impl fmt::Display for Name {
    ghost use Rattle.std.specs.Prelude.{Some};

    ghost output = { λ n. Some n };

    fn fmt<W: fmt::Write>(&self, f: &mut fmt::Formatter<W>) -> fmt::Result {
        let text = self.as_str();
        write!(f, "{text}")
    }
}

impl PartialEq for Name {
    ghost use Rattle.std.specs.Prelude.{◌==◌};
    ghost use Rattle.std.specs.Cmp as laws;
    ghost use Rattle.std.proofs.lemmas.Cmp.{nat_list_eq_equiv};
    ghost use lib.Pointwise.{pointwise};

    ghost eq = { pointwise ◌==◌ };

    ghost laws = { laws.partial_equiv_from_equiv nat_list_eq_equiv };

    fn eq(&self, other: &Name) -> bool {
        self.as_str() == other.as_str()
    }
}

impl Eq for Name {
    ghost use Rattle.std.proofs.lemmas.Cmp.{nat_list_eq_equiv};

    ghost laws = { nat_list_eq_equiv };
}

impl Hash for Name {
    ghost use Rattle.std.proofs.Common.{rules};
    ghost use Rattle.std.specs.Hash as fed;
    ghost use Rattle.std.specs.Cmp.Rules.{comparing, hashing};

    ghost hash_input = { λ n. fed.str n };

    ghost respects_eq = { Prim.search (hashing, rules) };

    fn hash<H: Hasher>(&self, state: &mut H) {
        self.as_str().hash(state);
    }
}

/// Up to 16 bytes in place, or more of them that copies share.
#[derive(Drop)]
enum Bytes {
    InPlace(ArrayVec<u8, 16>),
    Shared(RcSlice<u8>),
}

/// A string of bytes; seen as their list. Up to 16 bytes stand in place and take no allocation; copies
/// of a longer string share its bytes.
pub struct ByteString {
    bytes: Bytes,
}

/// One call where a string is let go, so that proofs see no more of what is inside.
impl Drop for ByteString {
    fn drop(self) {
        let ByteString { bytes: _bytes } = self;
    }
}

impl Model for ByteString {
    ghost use Rattle.std.specs.Prelude.{List, ℕ};
    ghost use Rattle.std.specs.Coded.{coded_list, coded_ℕ};

    ghost Value = { List ℕ };

    ghost coded = { coded_list coded_ℕ };

    ghost use Rattle.px_value.specs.Text.{string_bytes};

    ghost view = { λ b. string_bytes b.bytes };
}

impl ByteString {
    ghost use Rattle.std.specs.Prelude.{Ok};

    /// These bytes, with no copy.
    pub fn from_vec(bytes: Vec<u8>) -> Px<ByteString>
        ensures { Answers result (Ok bytes.items) }
    {
        let bytes = Bytes::Shared(RcSlice::from_vec(bytes)?);
        Ok(ByteString { bytes })
    }

    /// The bytes, copied. At most 16 of them take no allocation.
    pub fn from_slice(alloc: Global, bytes: &[u8]) -> Px<ByteString>
        ensures { Answers result (Ok bytes.now) }
    {
        let mut short = ArrayVec::new();
        let bytes = match short.try_extend_from_slice(bytes) {
            Ok(()) => Bytes::InPlace(short),
            Err(_) => Bytes::Shared(RcSlice::from_slice(alloc, bytes)?),
        };
        Ok(ByteString { bytes })
    }

    /// The bytes, lent.
    pub fn as_slice(&self) -> &[u8]
        ensures { result.now ≡ self.now }
    {
        match &self.bytes {
            Bytes::InPlace(bytes) => bytes.as_slice(),
            Bytes::Shared(bytes) => bytes.as_slice(),
        }
    }

    /// An equal string, which shares more than 16 bytes and takes no allocation.
    pub fn try_clone(&self, alloc: Global) -> Px<ByteString>
        ensures { Answers result (Ok self.now) }
    {
        match &self.bytes {
            Bytes::InPlace(bytes) => ByteString::from_slice(alloc, bytes.as_slice()),
            Bytes::Shared(bytes) => {
                let bytes = Bytes::Shared(bytes.clone()?);
                Ok(ByteString { bytes })
            }
        }
    }
}

impl PartialEq for ByteString {
    ghost use Rattle.std.specs.Prelude.{◌==◌};
    ghost use Rattle.std.specs.Cmp as laws;
    ghost use Rattle.std.proofs.lemmas.Cmp.{nat_list_eq_equiv};
    ghost use lib.Pointwise.{pointwise};

    ghost eq = { pointwise ◌==◌ };

    ghost laws = { laws.partial_equiv_from_equiv nat_list_eq_equiv };

    fn eq(&self, other: &ByteString) -> bool {
        self.as_slice() == other.as_slice()
    }
}

impl Eq for ByteString {
    ghost use Rattle.std.proofs.lemmas.Cmp.{nat_list_eq_equiv};

    ghost laws = { nat_list_eq_equiv };
}

impl Hash for ByteString {
    ghost use Rattle.std.proofs.Common.{rules};
    ghost use Rattle.std.specs.Hash as fed;
    ghost use Rattle.std.specs.Cmp.Rules.{comparing, hashing};

    ghost hash_input = { λ b. fed.slice fed.u8 b };

    ghost respects_eq = { Prim.search (hashing, rules) };

    fn hash<H: Hasher>(&self, state: &mut H) {
        self.as_slice().hash(state);
    }
}
