//! Fields of nodes that keep a rule: the value and the bytes after it.
ghost use Rattle.std.specs.Prelude.{◌≡◌, ◌-◌, true, ◌&&◌, nat_lt, length, IfOk};
ghost use Rattle.std.specs.Option.{option_copied};
ghost use Rattle.std.specs.Int.{w8};
ghost use Rattle.byte_fields.specs.Reading.{keeping, number, with_len};
ghost use Rattle.byte_fields.specs.Gives.{Gives};
ghost use Rattle.changeset_model.specs.Path.{is_element as is_path_element};
ghost use Rattle.manifest_model.specs.NodeReading.{is_after_name};
ghost use Rattle.node_fields.specs.declared.fault.NodeFault.TheVariants.{BadNode};

use crate::fault::NodeFault;
use byte_fields::BadField;
use byte_fields::fields::bytes_at;
use repo_path::is_element;

/// A length of 1 to 255 in one byte, and a name of that length that is greater than the one before it.
pub fn name_at<'a>(bytes: &'a [u8], before: Option<&[u8]>) -> Result<(&'a [u8], &'a [u8]), BadField>
    ensures field { Gives (λ x. (x.0.now, x.1.now)) result (with_len w8 (λ n. nat_lt 0 n) (keeping (λ name. is_path_element name && is_after_name (option_copied before.entry) name)) bytes.now) }
    ensures element { IfOk result (λ x. is_path_element x.0.now ≡ true) }
{
    let (len, rest) = length_at(bytes)?;
    let (name, after) = bytes_at(rest, usize::from(len))?;
    if !is_element(name) || !is_after(before, name) {
        return Err(BadField { left: rest.len() });
    }
    Ok((name, after))
}

// A length of 1 to 255 in one byte.
fn length_at(bytes: &[u8]) -> Result<(u8, &[u8]), BadField>
    ensures { Gives (λ x. (x.0, x.1.now)) result (number w8 (λ n. nat_lt 0 n) bytes.now) }
{
    match bytes {
        [first, rest @ ..] if 0 < *first => Ok((*first, rest)),
        _ => Err(BadField { left: bytes.len() }),
    }
}

// Whether a name is greater than the one before it, if there is one.
fn is_after(before: Option<&[u8]>, name: &[u8]) -> bool
    ensures { result ≡ is_after_name (option_copied before.entry) name.now }
{
    match before {
        None => true,
        Some(before) => before.cmp(name).is_lt(),
    }
}

/// The fault of bytes in which a field, or what follows a node, begins so many bytes before their end.
pub fn bad_node(bytes: &[u8], left: usize) -> NodeFault
    ensures { result ≡ BadNode (length bytes.now - left) }
{
    NodeFault::BadNode {
        at: bytes.len().saturating_sub(left),
    }
}
