//! Names in a directory.
ghost use Rattle.std.specs.Prelude.{◌≡◌, true, Some, IfOk, OnOk, ◌++◌, nat_eq, refl};
ghost use Rattle.std.specs.Cmp.{partial_equiv_from_equiv};
ghost use Rattle.std.specs.Cmp.Lexicographic.{pointwise, slice_cmp, nat_list_eq_equiv, nat_list_cmp_total, texts_ties, texts_po};
ghost use Rattle.std.specs.Int.{w8};
ghost use Rattle.std.specs.Ordering.{nat_cmp};
ghost use Rattle.byte_fields.specs.Bytes.{sized};
ghost use Rattle.changeset_model.specs.Path.{is_element};
ghost use Rattle.node_fields.specs.Names.{IsText, text_bytes};

use std::alloc::{AllocError, Global};
use std::cmp::Ordering;
use std::marker::Model;

// The most bytes that a name has in place: with their number and what tells the forms apart it is as large as a list.
const SHORT: usize = 22;

// The bytes of a name. Most are few, and take no memory of their own.
#[derive(Debug, Drop)]
enum Text {
    Short { bytes: [u8; SHORT], len: u8 },
    Long(Vec<u8>),
}

/// A name in a directory: an element of a path, 1 to 255 bytes of UTF-8. Names are ordered by their bytes.
#[derive(Debug, Drop)]
pub struct Name {
    text: Text,
}

impl Model for Name {
    ghost use Rattle.std.specs.Prelude.{◌≡◌, true, List, ℕ};
    ghost use Rattle.changeset_model.specs.Path.{is_element};
    ghost use Rattle.node_fields.specs.Names.{IsText, text_bytes};

    ghost Value = { List ℕ };

    ghost view = { λ n. text_bytes n.text };

    ghost invariant = { λ n. (is_element (text_bytes n.text) ≡ true) × IsText n.text };
}

impl Name {
    /// The name that is an element of a path.
    pub fn copy_of(alloc: Global, element: &[u8]) -> Result<Name, AllocError>
        requires { is_element element.now ≡ true }
        ensures { IfOk result (λ name. name ≡ element.now) }
    {
        let text = text_of(alloc, element)?;
        Ok(Name { text })
    }

    /// Its bytes.
    pub fn as_bytes(&self) -> &[u8]
        ensures bytes { result.now ≡ self.now }
        ensures element { is_element self.now ≡ true }
    {
        match &self.text {
            Text::Short { bytes, len } => &bytes[..usize::from(*len)],
            Text::Long(bytes) => bytes.as_slice(),
        }
    }

    /// Writes its length and its bytes at the end.
    pub fn put_sized(&self, out: &mut Vec<u8>) -> Result<(), AllocError>
        ensures { OnOk result (out.new.items ≡ out.old.items ++ sized w8 self.now) }
    {
        let bytes = self.as_bytes();
        let len = bytes.len() as u8;
        out.extend_from_slice(&len.to_be_bytes())?;
        out.extend_from_slice(bytes)?;
        Ok(())
    }
}

// The same bytes, in place if they are few.
fn text_of(alloc: Global, element: &[u8]) -> Result<Text, AllocError>
    ensures bytes { IfOk result (λ text. text_bytes text ≡ element.now) }
    ensures text { IfOk result IsText }
{
    let count = element.len();
    if count > SHORT {
        return Ok(Text::Long(Vec::from_slice(alloc, element)?));
    }
    let mut bytes = [0; SHORT];
    bytes[..count].copy_from_slice(element);
    Ok(Text::Short {
        bytes,
        len: count as u8,
    })
}

impl PartialEq for Name {
    ghost eq = { pointwise nat_eq };

    ghost laws = { partial_equiv_from_equiv nat_list_eq_equiv };

    fn eq(&self, other: &Name) -> bool {
        self.as_bytes() == other.as_bytes()
    }
}

impl Eq for Name {
    ghost laws = { nat_list_eq_equiv };
}

impl PartialOrd for Name {
    ghost partial_cmp = { λ x y. Some (slice_cmp nat_cmp x y) };

    ghost laws = { texts_po };

    fn partial_cmp(&self, other: &Name) -> Option<Ordering> {
        Some(self.cmp(other))
    }
}

impl Ord for Name {
    ghost cmp = { slice_cmp nat_cmp };

    ghost total = { nat_list_cmp_total };

    ghost matches_partial_cmp = { λ x y. refl };

    ghost matches_eq = { texts_ties };

    fn cmp(&self, other: &Name) -> Ordering {
        self.as_bytes().cmp(other.as_bytes())
    }
}
