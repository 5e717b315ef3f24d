use sf_list::Items;

/// The type of a box: four characters (ISO/IEC 14496-12, 4.2).
#[derive(Clone, Copy, Debug, PartialEq, Eq)]
pub struct FourCc(pub [u8; 4]);

/// The head of a box, as it was read.
#[derive(Clone, Copy, Debug, PartialEq, Eq)]
pub struct BoxHead {
    pub kind: FourCc,
    /// The place of the head, in bytes.
    pub at: u64,
    /// How many bytes the size and the type take: 8, or 16 where the size has eight bytes.
    pub head: u64,
    /// How many bytes the whole box takes, its head included.
    pub size: u64,
}

/// Why no whole box stands at a place.
#[derive(Clone, Copy, Debug, PartialEq, Eq)]
pub enum BoxFault {
    /// The bytes end within the head.
    Short { at: u64 },
    /// The stated size is below that of the head, or passes the end.
    Overrun { at: u64, size: u64 },
}

/// Why no whole boxes tile some bytes.
#[derive(Clone, Copy, Debug, PartialEq, Eq)]
pub enum ChildrenFault {
    /// The bytes end within the head at this place.
    Short { at: u64 },
    /// The stated size at this place is below that of the head, or passes the end.
    Overrun { at: u64, size: u64 },
    NoMemory,
}

/// The heads of boxes, in order.
pub type Heads = Items<BoxHead>;
