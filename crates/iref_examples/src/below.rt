//! An index of URIs in the order of their sort keys: all below a URI is one range of it.
ghost use Rattle.std.specs.{BTreeMap.{IsUnchanged, values}, Prelude.{◌≡◌, IfOk, OnErr, OnOk, map}};
ghost use Rattle.iref.specs.References.{reference_buf_value, reference_value};
ghost use Rattle.iref_examples.specs.Below.{AreUnderTheirKeys, HasAdded, all_below};

use iref::uri::{Uri, UriBuf};
use iref::{Memory, SortKey};
use std::alloc::Global;
use std::collections::BTreeMap;

/// URIs, each under its sort key.
pub type Index = BTreeMap<SortKey, UriBuf>;

/// Puts a URI under its sort key, where one that is equal to it may have stood. Out of memory, it
/// returns `Memory` and the index is as it was.
pub fn add(alloc: Global, index: &mut Index, uri: UriBuf) -> Result<(), Memory>
    ensures ok { OnOk result (AreUnderTheirKeys reference_buf_value index.old
        → AreUnderTheirKeys reference_buf_value index.new) }
    ensures added { OnOk result (HasAdded reference_buf_value index.old index.new uri) }
    ensures err { OnErr result (IsUnchanged index.old index.new) }
{
    let key = uri.sort_key(alloc)?;
    index.insert(key, uri)?;
    Ok(())
}

/// The URIs of the index that are below this one, in their order: of `http://h/docs/a`,
/// `http://h/docs?q` and `http://h/docsx` the first two are below `http://h/docs`. Only those that
/// are below it are looked at, beside as many as a look-up takes.
pub fn below<'a>(alloc: Global, index: &'a Index, uri: Uri<'_>) -> Result<Vec<Uri<'a>>, Memory>
    requires { AreUnderTheirKeys reference_buf_value index.now }
    ensures { IfOk result (λ found. map reference_value found.items
        ≡ all_below (reference_value uri.entry) (map reference_buf_value (values index.now))) }
{
    let range = uri.sort_range(alloc)?;
    let mut found = Vec::new(alloc);
    for (_, below) in index.range(range) {
        found.push(below.as_uri())?;
    }
    Ok(found)
}
