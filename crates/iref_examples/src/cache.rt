//! A cache over a map of std, whose keys are canonical texts of URIs: two spellings of one URI find
//! one entry, such as `HTTP://a/%7Eb/./c` and `http://a/~b/c`. So do `?a%26b` and `?a&b`, which
//! servers tell apart: it is not for their responses.
ghost use Rattle.std.specs.{Prelude.{◌≡◌, None, IfOk, IsOk, OnErr, OnOk}, Option.{option_copied}};
ghost use Rattle.iref.specs.{Canonical.{canonical_text}, Key.{key}, Reference.{ReferenceValue}};
ghost use Rattle.iref.specs.References.{reference_text, reference_value};
ghost use Rattle.iref_examples.specs.Caches.{found, HasPut};

use iref::Memory;
use iref::uri::Uri;
use std::alloc::Global;
use std::collections::HashMap;
use std::hash::RandomState;
use std::marker::Model;

/// Values, each under the canonical text of a URI. The hasher has random keys: with a fixed seed,
/// whoever chooses the URIs could choose many that have one hash.
#[derive(Drop)]
pub struct Cache<V> {
    values: HashMap<String, V, RandomState>,
}

impl<V> Model for Cache<V> {
    ghost use Rattle.std.specs.Prelude.{List};
    ghost use Rattle.iref.specs.Rules.{Text};
    ghost use Rattle.iref_examples.specs.Caches.{entries_of, HasCanonicalKeys};

    ghost Value = { List (Text × V) };

    ghost view = { λ c. entries_of c.values };

    ghost invariant = { λ c. HasCanonicalKeys (entries_of c.values) };
}

impl<V: Drop> Cache<V> {
    /// No values: no URI finds one.
    pub fn new(alloc: Global, seed: RandomState) -> Self
        ensures { (uri : ReferenceValue) → found result uri ≡ None }
    {
        let values = HashMap::with_hasher(alloc, seed);
        Cache { values }
    }

    /// Puts a value: each spelling of the URI finds it then, and any other URI what it found before.
    /// Out of memory, it returns `Memory` and the cache is as it was.
    pub fn put(&mut self, alloc: Global, uri: Uri<'_>, value: V) -> Result<(), Memory>
        ensures ok { OnOk result (HasPut self.old self.new (reference_value uri.entry) value) }
        ensures err { OnErr result (self.new ≡ self.old) }
    {
        let canonical = uri.canonical(alloc)?;
        self.values.insert(canonical.into_string(), value)?;
        Ok(())
    }

    /// The value that was last put under a spelling of the URI. The look-up of a URI whose text is
    /// canonical takes no memory; the canonical text of another is written into the buffer, which is
    /// used again. Each key is a canonical text, so the text itself is looked up first: most are found
    /// by that, and another spelling pays for one look-up more.
    pub fn get(&self, uri: Uri<'_>, buffer: &mut String) -> Result<Option<&V>, Memory>
        ensures found { IfOk result (λ value.
            option_copied value ≡ found self.now (reference_value uri.entry)) }
        ensures canonical { reference_text uri.entry
            ≡ canonical_text (key (reference_value uri.entry)) → IsOk result }
    {
        if let Some(value) = self.values.get(uri.as_str()) {
            return Ok(Some(value));
        }
        let text = uri.canonical_in(buffer)?;
        if text == uri.as_str() {
            return Ok(None);
        }
        Ok(self.values.get(text))
    }
}
