//! What a look-up of a packet's source finds.

/// Where the entry of a source is in a location table. An index holds until the table changes.
#[derive(Clone, Copy, Debug, PartialEq, Eq)]
pub enum EntryIndex {
    /// The source has an entry, live or expired, at this index.
    At(usize),
    /// The source has no entry. A new one goes before the entry at this index.
    Gap(usize),
    /// The table doesn't say where the entry is.
    Unknown,
}

/// What a location table finds of a packet and its source.
#[derive(Clone, Copy, Debug, PartialEq, Eq)]
pub enum Found {
    /// The source is live, and the packet's sequence number is remembered.
    Duplicate,
    /// The source isn't live, and the table has no room for its entry.
    Full,
    /// The packet is new, and its source is live or there is room for its entry.
    New(EntryIndex),
}
