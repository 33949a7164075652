//! Catalogues: the entries in order, with the rule for plural forms in their header.
ghost use Rattle.std.specs.Prelude.{◌≡◌, ◌<◌, ◌↔◌, List, length, slice_get, Some, IfOk, IsTrue, option_map};
ghost use Rattle.po_header.specs.Rules.{rule_of};
ghost use Rattle.mo_image.specs.Entry.{Entry, key_bytes};
ghost use Rattle.mo_image.specs.Map.{IsFileOf, IsLawful, entry_at};
ghost use Rattle.mo_image.specs.MoFile.{spelling};
ghost use Rattle.entry_search.specs.Search.{AtMostDigits};
ghost use Rattle.catalogue_map.specs.Value.{HasMapRule};

use entry_search::{AskedKey, Entries, Steps};
use mo_image::{EntryList, EntryRef, EntryStrings, Image};
use po_header::{RuleRead, read_rule};
use std::alloc::{AllocError, Global};
use std::marker::Model;
use std::sync::ledger::Ledger;

/// A message catalogue: a finite map from keys to entries, in rising order of the keys' bytes.
///
/// Its MO file has at most 268,435,456 bytes.
#[derive(Drop)]
pub struct Catalogue {
    /// The entries, in rising order of the keys' bytes.
    entries: Entries,
    /// The rule for plural forms in the header.
    rule: RuleRead,
}

impl Model for Catalogue {
    ghost use Rattle.std.specs.Prelude.{List};
    ghost use Rattle.mo_image.specs.Entry.{Entry};

    ghost Value = { List Entry };

    ghost use Rattle.po_header.specs.Rules.{rule_of};
    ghost use Rattle.catalogue_map.specs.Value.{HasMapRule};

    ghost view = { λ c. c.entries };

    ghost invariant = { λ c. HasMapRule c.entries (rule_of c.rule) };
}

/// Reads the rule for plural forms in the header of the entries.
fn rule_of_header(alloc: Global, entries: &Entries) -> Result<RuleRead, AllocError>
    ensures { IfOk result (λ rule. HasMapRule entries.now (rule_of rule)) }
{
    match entries.find(None, &[]) {
        Some(header) => read_rule(alloc, header.form(0)),
        None => Ok(RuleRead::Absent),
    }
}

impl Catalogue {
    /// Makes a catalogue of the entries that have these strings. They have to list a lawful map, in rising order of
    /// their keys' bytes. The only error is a failed allocation.
    pub fn from_strings(
        alloc: Global,
        strings: Vec<EntryStrings<'_>>,
    ) -> Result<Catalogue, AllocError>
        requires { IsLawful strings.items }
        ensures { IfOk result (λ catalogue. catalogue ≡ strings.entry.items) }
    {
        Catalogue::from_list(alloc, &strings)
    }

    /// Makes a catalogue of its MO file: the bytes that `file` returned, kept or sent elsewhere in the meantime. The
    /// file is copied once. The only error is a failed allocation.
    pub fn from_file(alloc: Global, file: &[u8]) -> Result<Catalogue, AllocError>
        requires { (m : List Entry) × IsFileOf file.now m }
        ensures { IfOk result (λ catalogue. IsFileOf file.now catalogue) }
    {
        Catalogue::from_image(alloc, Image::copied(alloc, file)?)
    }

    /// Makes a catalogue of its MO file as `from_file` does, and keeps the file's memory. The only error is a failed
    /// allocation.
    pub fn from_owned_file(alloc: Global, file: Vec<u8>) -> Result<Catalogue, AllocError>
        requires { (m : List Entry) × IsFileOf file.items m }
        ensures { IfOk result (λ catalogue. IsFileOf file.items catalogue) }
    {
        Catalogue::from_image(alloc, Image::of_file(file))
    }

    /// Makes a catalogue of a list of entries.
    pub(crate) fn from_list<L: EntryList>(alloc: Global, list: &L) -> Result<Catalogue, AllocError>
        requires { IsLawful (L.entries list.now) }
        ensures { IfOk result (λ catalogue. catalogue ≡ L.entries list.now) }
    {
        Catalogue::from_image(alloc, Image::spelled(alloc, list)?)
    }

    /// Makes a catalogue of a list of entries and the rule for plural forms in their header, with its MO file in
    /// `memory`, whose contents are dropped. The entries have to list a lawful map, in rising order of their keys'
    /// bytes. The only error is a failed allocation.
    pub fn from_list_over<L: EntryList>(
        memory: Vec<u8>,
        list: &L,
        rule: RuleRead,
    ) -> Result<Catalogue, AllocError>
        requires lawful { IsLawful (L.entries list.now) }
        requires rule { HasMapRule (L.entries list.now) (rule_of rule) }
        ensures { IfOk result (λ catalogue. catalogue ≡ L.entries list.now) }
    {
        let image = Image::spelled_over(memory, list)?;
        let entries = Entries::new(image);
        Ok(Catalogue { entries, rule })
    }

    /// Makes a catalogue of an image, and reads the rule in its header.
    fn from_image(alloc: Global, image: Image) -> Result<Catalogue, AllocError>
        ensures { IfOk result (λ catalogue. catalogue ≡ image) }
    {
        let entries = Entries::new(image);
        let rule = rule_of_header(alloc, &entries)?;
        Ok(Catalogue { entries, rule })
    }

    /// Indexes the entries by the hashes of their keys, for a catalogue that is asked often. A look-up then compares
    /// one key instead of running a binary search; the index takes some 40 bytes per entry. It also stores the values
    /// of the plural rule at 0 to 199 in a table. The entries don't change, and all look-ups answer as before, even if
    /// an allocation fails.
    ///
    /// Hashes have 32 bits. Keys that share one are still found by binary search.
    pub fn index(&mut self, alloc: Global) -> Result<(), AllocError>
        ensures { self.new ≡ self.old }
    {
        self.rule.tabulate(alloc)?;
        self.entries.index(alloc)
    }

    /// The number of entries.
    pub fn len(&self) -> usize
        ensures len { result ≡ length self.now }

        // Every catalogue represents a lawful map.
        ensures lawful { IsLawful self.now }
    {
        self.entries.image().len()
    }

    /// Whether the catalogue has no entry.
    pub fn is_empty(&self) -> bool
        ensures { IsTrue result ↔ (length self.now ≡ 0) }
    {
        self.entries.image().is_empty()
    }

    /// Returns the i-th entry, in rising order of the keys' bytes.
    pub fn entry(&self, i: usize) -> EntryRef<'_>
        requires { i < length self.now }
        ensures { slice_get self.now i ≡ Some result }
    {
        self.entries.image().entry(i)
    }

    /// Finds the entry of a msgid, in a context or in none. `None` means that there is no such entry. Keys are compared
    /// byte by byte.
    #[inline(always)]
    pub fn find(&self, context: Option<&str>, id: &str) -> Option<EntryRef<'_>>
        ensures { result ≡ entry_at self.now (key_bytes (option_map (λ s. s.now) context.entry) id.now) }
    {
        self.find_bytes(context.map(str::as_bytes), id.as_bytes())
    }

    /// Finds the entry of a msgid by its bytes, which needn't be UTF-8; a key that isn't is never found.
    #[inline(always)]
    pub fn find_bytes(&self, context: Option<&[u8]>, id: &[u8]) -> Option<EntryRef<'_>>
        ensures { result ≡ entry_at self.now (key_bytes (option_map (λ s. s.now) context.entry) id.now) }
    {
        self.find_asked(&AskedKey::new(context, id))
    }

    /// Finds the entry of a key that was made before, as `find_bytes` does. To look one key up in several catalogues,
    /// make it once: it is then hashed once.
    #[inline(always)]
    pub fn find_asked(&self, asked: &AskedKey<'_>) -> Option<EntryRef<'_>>
        ensures { result ≡ entry_at self.now asked.now }
    {
        self.entries.find_asked(asked)
    }

    /// Returns a hint for `find_hinted` and `translated_with_nul_hinted`: where the index should have the entry of this
    /// key. To look up many keys, first get the hints of all of them: a processor waits for the index's memory for
    /// several of them at once.
    #[inline(always)]
    pub fn hint(&self, asked: &AskedKey<'_>) -> u64 {
        self.entries.hint(asked)
    }

    /// Finds the entry of a msgid as `find_bytes` does, whatever the hint is. It takes the least time with the hint of
    /// the msgid's key.
    #[inline(always)]
    pub fn find_hinted(&self, context: Option<&[u8]>, id: &[u8], hint: u64) -> Option<EntryRef<'_>>
        ensures { result ≡ entry_at self.now (key_bytes (option_map (λ s. s.now) context.entry) id.now) }
    {
        self.entries.find_hinted(context, id, hint)
    }

    /// Finds the entry of a msgid as `find` does, and adds its steps to a count. A step is one comparison of the key
    /// with that of an entry; there are at most as many as the number of entries has binary digits.
    pub fn find_counted<L: Ledger>(
        &self,
        context: Option<&str>,
        id: &str,
        steps: &mut Steps<L>,
    ) -> Option<EntryRef<'_>>
        ensures found { result ≡ entry_at self.now (key_bytes (option_map (λ s. s.now) context.entry) id.now) }
        ensures cost { AtMostDigits (length self.now) steps.old steps.new }
    {
        let context = context.map(str::as_bytes);
        self.entries.find_counted(context, id.as_bytes(), steps)
    }

    /// Returns the one MO file of the catalogue: revision 0, little-endian, no hash table and no padding (GNU gettext
    /// manual, "MO Files").
    pub fn file(&self) -> &[u8]
        ensures file { result.now ≡ spelling self.now }

        // Every catalogue represents a lawful map.
        ensures lawful { IsLawful self.now }
    {
        self.entries.image().file()
    }

    /// The rule for plural forms in the header.
    pub(crate) fn rule(&self) -> &RuleRead
        ensures { HasMapRule self.now (rule_of result.now) }
    {
        &self.rule
    }
}
