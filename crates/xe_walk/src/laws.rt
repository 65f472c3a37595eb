//! Laws of the definition of the walk, each as the contract of a function that does nothing.

ghost use Rattle.xe_walk.specs.Laws.{UsesAsPageSizeSays, UsesPresentEntries, DependsOnEntriesAlone, TranslatesPagesTogether};

/// A walk that ends well used as many entries as its page's size says: a 4 KiB page two in 32-bit paging,
/// three in PAE paging and four in 4-level paging, a larger page fewer. The linear address gives the place
/// within that page.
pub fn page_sizes_tell_entries()
    ensures { UsesAsPageSizeSays }
{}

/// Every entry that a walk used is what RAM holds there, was present, and had no reserved bit set.
#[tactic(auto, using(crate::proofs::UsedLaws::uses_present_entries))]
pub fn used_entries_are_present()
    ensures { UsesPresentEntries }
{}

/// A walk depends on no other byte of RAM than those of the entries that it visits: where two RAMs agree
/// on these, the walks and the entries visited are the same.
pub fn walks_depend_on_their_entries()
    ensures { DependsOnEntriesAlone }
{}

/// The bytes of a page of 4 KiB are translated together: by the same entries, each to its place in the page.
/// Where one has no translation, none has, for the same reason; CR2 of a page fault is each one's own address.
pub fn pages_are_translated_together()
    ensures { TranslatesPagesTogether }
{}
