//! The rules of each caller that one names.
ghost use Rattle.std.specs.Prelude.{IfOk};
ghost use Rattle.land_policy.specs.Index.{IsTables};
ghost use Rattle.land_policy.specs.View.{rules_view};

use crate::firsts::{Firsts, firsts_of};
use crate::rule::Rule;
use repo_path::BookName;
use std::alloc::{AllocError, Global};
use std::collections::BTreeMap;

/// The rules by the callers that they name, and by path.
pub(crate) type Tables = BTreeMap<BookName, Firsts>;

/// The rules of each caller that one names. It looks at each rule once for each of these callers.
pub(crate) fn tables_of(alloc: Global, rules: &[Rule]) -> Result<Tables, AllocError>
    ensures { IfOk result (IsTables (rules_view rules.now)) }
{
    let mut tables = BTreeMap::new(alloc);
    for rule in rules {
        if let Some(name) = &rule.name {
            if !tables.contains_key(name) {
                let firsts = firsts_of(alloc, rules, Some(name))?;
                tables.insert(name.copy(alloc)?, firsts)?;
            }
        }
    }
    Ok(tables)
}
