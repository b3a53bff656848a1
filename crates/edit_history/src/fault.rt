//! Why an edit is refused, and why an edit cannot be undone or redone.

ghost use Rattle.std.specs.Prelude.{◌≡◌, codes};
ghost use Rattle.edit_history.specs.Fault.{code_of, name_of, fault_of};
ghost use Rattle.edit_history.specs.declared.fault.EditFault.TheVariants as edit_faults;

use lsa_codec::MakeFault;
use std::alloc::AllocError;
use thiserror::Error;

/// The first reason to refuse an edit. The text of each is its name.
#[derive(Clone, Copy, Debug, PartialEq, Eq, Error)]
pub enum EditFault {
    /// E1: the database has no such area.
    #[error("NoArea")]
    NoArea,
    /// E2: the area has no router-LSA of the router; for an edit that names no area, no area has
    /// one.
    #[error("NoRouter")]
    NoRouter,
    /// E3: the router-LSA has no such link.
    #[error("NoLink")]
    NoLink,
    /// E4: the cost of an interface to a router or a transit network would be 0 (RFC 2328, C.3).
    #[error("ZeroCost")]
    ZeroCost,
    /// E5: both ends of a link are one router.
    #[error("SameRouter")]
    SameRouter,
    /// E6: the area has no network-LSA of the network.
    #[error("NoNetwork")]
    NoNetwork,
    /// E7: the area has no summary-LSA of the router for the prefix.
    #[error("NoSummary")]
    NoSummary,
    /// E8: there is no AS-external-LSA of the router for the prefix.
    #[error("NoExternal")]
    NoExternal,
    /// E9: an LSA with the new one's LS type, Link State ID and Advertising Router is there
    /// already.
    #[error("KeyTaken")]
    KeyTaken,
    /// E10: the LSA would be longer than 65,535 bytes.
    #[error("TooLong")]
    TooLong,
    /// E11: an area, the LSAs of AS scope or the dump would pass their limit.
    #[error("Full")]
    Full,
    /// E12: 10,000 edits are done.
    #[error("HistoryFull")]
    HistoryFull,
    /// E13: memory ran out.
    #[error("OutOfMemory")]
    OutOfMemory,
    /// E3, of an event: the first router has no point-to-point link to the second.
    #[error("NotNeighbors")]
    NotNeighbors,
    /// E3, of an event: the router has no such interface with this address.
    #[error("NoInterface")]
    NoInterface,
    /// E3, of an event: the router is on no transit network with this prefix.
    #[error("NotOnNetwork")]
    NotOnNetwork,
    /// E15, of an event: which link the interface with this address has is not known.
    #[error("UnclearEnd")]
    UnclearEnd,
}

impl EditFault {
    /// The code and the name of each fault.
    fn texts(self) -> (&'static str, &'static str)
        ensures code { result.0.now ≡ code_of self }
        ensures name { result.1.now ≡ name_of self }
    {
        match self {
            EditFault::NoArea => ("E1", "NoArea"),
            EditFault::NoRouter => ("E2", "NoRouter"),
            EditFault::NoLink => ("E3", "NoLink"),
            EditFault::ZeroCost => ("E4", "ZeroCost"),
            EditFault::SameRouter => ("E5", "SameRouter"),
            EditFault::NoNetwork => ("E6", "NoNetwork"),
            EditFault::NoSummary => ("E7", "NoSummary"),
            EditFault::NoExternal => ("E8", "NoExternal"),
            EditFault::KeyTaken => ("E9", "KeyTaken"),
            EditFault::TooLong => ("E10", "TooLong"),
            EditFault::Full => ("E11", "Full"),
            EditFault::HistoryFull => ("E12", "HistoryFull"),
            EditFault::OutOfMemory => ("E13", "OutOfMemory"),
            EditFault::NotNeighbors => ("E3", "NotNeighbors"),
            EditFault::NoInterface => ("E3", "NoInterface"),
            EditFault::NotOnNetwork => ("E3", "NotOnNetwork"),
            EditFault::UnclearEnd => ("E15", "UnclearEnd"),
        }
    }

    /// The fault's code, as replies print it: `E1` to `E13`, or `E15`.
    pub fn code(self) -> &'static str
        ensures { result.now ≡ code_of self }
    {
        self.texts().0
    }

    /// The fault's name, as replies print it after the code.
    pub fn name(self) -> &'static str
        ensures { result.now ≡ name_of self }
    {
        self.texts().1
    }
}

impl From<AllocError> for EditFault {
    ghost from_gives = { λ _ e. e ≡ edit_faults.OutOfMemory };

    fn from(_e: AllocError) -> EditFault {
        EditFault::OutOfMemory
    }
}

impl From<MakeFault> for EditFault {
    ghost from_gives = { λ fault e. e ≡ fault_of fault };

    fn from(fault: MakeFault) -> EditFault {
        match fault {
            MakeFault::NoLink => EditFault::NoLink,
            MakeFault::ZeroCost => EditFault::ZeroCost,
            MakeFault::TooLong => EditFault::TooLong,
            MakeFault::OutOfMemory => EditFault::OutOfMemory,
        }
    }
}

/// Why edits cannot be undone. Its text is its name.
#[derive(Clone, Copy, Debug, PartialEq, Eq, Error)]
pub enum UndoFault {
    /// U1: fewer edits are done than are to be undone.
    #[error("NothingToUndo")]
    NothingToUndo,
}

impl UndoFault {
    /// The fault's code, as replies print it.
    pub fn code(self) -> &'static str
        ensures { result.now ≡ codes "U1" }
    {
        match self {
            UndoFault::NothingToUndo => "U1",
        }
    }

    /// The fault's name, as replies print it after the code.
    pub fn name(self) -> &'static str
        ensures { result.now ≡ codes "NothingToUndo" }
    {
        match self {
            UndoFault::NothingToUndo => "NothingToUndo",
        }
    }
}

/// Why edits cannot be redone. Its text is its name.
#[derive(Clone, Copy, Debug, PartialEq, Eq, Error)]
pub enum RedoFault {
    /// U2: fewer edits are undone than are to be redone.
    #[error("NothingToRedo")]
    NothingToRedo,
}

impl RedoFault {
    /// The fault's code, as replies print it.
    pub fn code(self) -> &'static str
        ensures { result.now ≡ codes "U2" }
    {
        match self {
            RedoFault::NothingToRedo => "U2",
        }
    }

    /// The fault's name, as replies print it after the code.
    pub fn name(self) -> &'static str
        ensures { result.now ≡ codes "NothingToRedo" }
    {
        match self {
            RedoFault::NothingToRedo => "NothingToRedo",
        }
    }
}
